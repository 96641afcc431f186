ghost use Rattle.std.specs.Prelude.{◌≡◌, ◌∷◌};
ghost use Rattle.memory.specs.MemoryCommands.{byte_of};
ghost use Rattle.base.specs.Crc.{low_high};

use base::RegistrationNumber;
use memory::MemoryCommand;

// A row of the tag with a number.
#[derive(Clone, Copy)]
pub struct Target {
    pub number: RegistrationNumber,
    pub row: u16,
}

impl Target {
    // The two bytes of the row's address as they are sent, the low one first.
    pub fn address(&self) -> [u8; 2]
        ensures { result ≡ low_high self.now.row }
    {
        let row = self.row;
        row.to_le_bytes()
    }

    // A command with the row's address behind it.
    pub fn addressed(&self, command: MemoryCommand) -> [u8; 3]
        ensures { result ≡ byte_of command ∷ low_high self.now.row }
    {
        let [low, high] = self.address();
        [command.byte(), low, high]
    }
}
