ghost use Rattle.std.specs.Prelude.{◌≡◌};
ghost use Rattle.memory.specs.Scratchpads.{command_of};
ghost use Rattle.memory.specs.MemoryCommands.{byte_of, meant, TakenFor};

use std::fmt;

// The commands of the memory phase, each with its byte.
#[derive(Clone, Copy, Debug, PartialEq, Eq)]
pub enum MemoryCommand {
    WriteScratchpad = 0x0F,
    ReadScratchpad = 0xAA,
    CopyScratchpad = 0x55,
    ReadMemory = 0xF0,
}

// A byte that is no command.
#[derive(Clone, Copy, Debug, PartialEq, Eq)]
pub struct UnknownCommand(pub u8);

impl MemoryCommand {
    pub fn byte(&self) -> u8
        ensures byte { result ≡ byte_of self.now }
        ensures meant { command_of result ≡ meant self.now }
    {
        *self as u8
    }
}

impl TryFrom<u8> for MemoryCommand {
    type Error = UnknownCommand;

    ghost try_from_gives = { TakenFor };

    fn try_from(byte: u8) -> Result<MemoryCommand, UnknownCommand> {
        match byte {
            0x0F => Ok(MemoryCommand::WriteScratchpad),
            0xAA => Ok(MemoryCommand::ReadScratchpad),
            0x55 => Ok(MemoryCommand::CopyScratchpad),
            0xF0 => Ok(MemoryCommand::ReadMemory),
            _ => Err(UnknownCommand(byte)),
        }
    }
}

// What it does, as a master asks it.
impl fmt::Display for MemoryCommand {
    fn fmt<W: fmt::Write>(&self, f: &mut fmt::Formatter<W>) -> fmt::Result {
        f.write_str(match self {
            MemoryCommand::WriteScratchpad => "write scratchpad",
            MemoryCommand::ReadScratchpad => "read scratchpad",
            MemoryCommand::CopyScratchpad => "copy scratchpad",
            MemoryCommand::ReadMemory => "read memory",
        })
    }
}
