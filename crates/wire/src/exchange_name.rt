use memory::MemoryCommand;
use std::fmt;

// What an exchange does: a command of the memory phase, or the reset that closes a job.
#[derive(Clone, Copy, Debug, PartialEq, Eq)]
pub enum ExchangeName {
    Command(MemoryCommand),
    ClosingReset,
}

impl fmt::Display for ExchangeName {
    fn fmt<W: fmt::Write>(&self, f: &mut fmt::Formatter<W>) -> fmt::Result {
        match self {
            ExchangeName::Command(command) => write!(f, "{command}"),
            ExchangeName::ClosingReset => f.write_str("closing reset"),
        }
    }
}
