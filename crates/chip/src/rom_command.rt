ghost use Rattle.std.specs.Prelude.{◌≡◌};
ghost use Rattle.chip.specs.Chips.{command_of};
ghost use Rattle.chip.specs.RomCommands.{byte_of, meant, TakenFor};

use memory::memory_command::UnknownCommand;

// The commands on a number, each with its byte.
#[derive(Clone, Copy, Debug, PartialEq, Eq)]
pub enum RomCommand {
    ReadRom = 0x33,
    MatchRom = 0x55,
    SearchRom = 0xF0,
    SkipRom = 0xCC,
    Resume = 0xA5,
}

impl RomCommand {
    pub fn byte(&self) -> u8
        ensures byte { result ≡ byte_of self.now }
        ensures meant { command_of result ≡ meant self.now }
    {
        *self as u8
    }
}

impl TryFrom<u8> for RomCommand {
    type Error = UnknownCommand;

    ghost try_from_gives = { TakenFor };

    fn try_from(byte: u8) -> Result<RomCommand, UnknownCommand> {
        match byte {
            0x33 => Ok(RomCommand::ReadRom),
            0x55 => Ok(RomCommand::MatchRom),
            0xF0 => Ok(RomCommand::SearchRom),
            0xCC => Ok(RomCommand::SkipRom),
            0xA5 => Ok(RomCommand::Resume),
            _ => Err(UnknownCommand(byte)),
        }
    }
}
