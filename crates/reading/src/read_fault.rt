ghost use Rattle.std.specs.Prelude.{◌≡◌, ℕ, List, [], Err};
ghost use Rattle.wire.specs.Exchanges.{refused_report};
ghost use Rattle.wire.specs.Jobs.{Report};
ghost use Rattle.reading.specs.ReadOutcomes.{read_report};
ghost use Rattle.reading.specs.declared.read_fault.ReadFault.TheVariants.{Exchange};

use base::Refusal;
use memory::MemoryCommand;
use std::error::Error;
use std::fmt;
use wire::{ExchangeFault, ExchangeName, Refused, RefusedJob};

// The exchanges of a reading, from the first on.
const EXCHANGES: [ExchangeName; 3] = [
    ExchangeName::Command(MemoryCommand::ReadScratchpad),
    ExchangeName::Command(MemoryCommand::ReadMemory),
    ExchangeName::ClosingReset,
];

// Why a reading was refused or failed.
#[derive(Clone, Copy, Debug, PartialEq, Eq)]
pub enum ReadFault {
    BadRow,
    Exchange(ExchangeFault),
}

impl ReadFault {
    // The refusal, the exchange and the steps made.
    pub fn refused(&self) -> Refused
        ensures { ◌≡◌ {A = Report (List ℕ)} (refused_report result) (read_report (Err self.now) []) }
    {
        match self {
            ReadFault::BadRow => Refused::at_once(Refusal::BadRow),
            ReadFault::Exchange(fault) => fault.refused(),
        }
    }
}

impl From<ExchangeFault> for ReadFault {
    ghost from_gives = { λ e r. r ≡ Exchange e };

    fn from(e: ExchangeFault) -> ReadFault {
        ReadFault::Exchange(e)
    }
}

impl fmt::Display for ReadFault {
    fn fmt<W: fmt::Write>(&self, f: &mut fmt::Formatter<W>) -> fmt::Result {
        let words = RefusedJob {
            refused: self.refused(),
            unit: "exchange",
            names: &EXCHANGES,
        };
        write!(f, "{words}")
    }
}

impl Error for ReadFault {}
