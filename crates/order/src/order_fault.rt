ghost use Rattle.std.specs.Prelude.{◌≡◌, Err};
ghost use Rattle.order.specs.OrderOutcomes.{order_verdict, refused_by};
ghost use Rattle.order.specs.declared.order_fault.OrderFault.TheVariants.{Exchange};

use base::Refusal;
use memory::MemoryCommand;
use std::error::Error;
use std::fmt;
use wire::{ExchangeFault, ExchangeName, Refused, RefusedJob};

// The exchanges of an order, from the first on.
const EXCHANGES: [ExchangeName; 5] = [
    ExchangeName::Command(MemoryCommand::WriteScratchpad),
    ExchangeName::Command(MemoryCommand::ReadScratchpad),
    ExchangeName::Command(MemoryCommand::CopyScratchpad),
    ExchangeName::Command(MemoryCommand::ReadMemory),
    ExchangeName::ClosingReset,
];

// Why an order was refused or failed.
#[derive(Clone, Copy, Debug, PartialEq, Eq)]
pub enum OrderFault {
    BadRow,
    Exchange(ExchangeFault),
    // The scratchpad differs from what was sent.
    Differs { index: usize, steps: u32 },
    // The row that was found differs from what was ordered.
    NotHeld { index: usize, steps: u32 },
}

impl OrderFault {
    // The refusal, the exchange and the steps made; and the first index that differs, of 7 and 8.
    pub fn refused(&self) -> (Refused, Option<usize>)
        ensures { refused_by result.0 result.1 ≡ order_verdict (Err self.now) }
    {
        match self {
            OrderFault::BadRow => (Refused::at_once(Refusal::BadRow), None),
            OrderFault::Exchange(fault) => (fault.refused(), None),
            OrderFault::Differs { index, steps } => (
                Refused {
                    refusal: Refusal::DataDiffer,
                    exchange: 2,
                    steps: *steps,
                },
                Some(*index),
            ),
            OrderFault::NotHeld { index, steps } => (
                Refused {
                    refusal: Refusal::NotHeld,
                    exchange: 5,
                    steps: *steps,
                },
                Some(*index),
            ),
        }
    }
}

impl From<ExchangeFault> for OrderFault {
    ghost from_gives = { λ e r. r ≡ Exchange e };

    fn from(e: ExchangeFault) -> OrderFault {
        OrderFault::Exchange(e)
    }
}

impl fmt::Display for OrderFault {
    fn fmt<W: fmt::Write>(&self, f: &mut fmt::Formatter<W>) -> fmt::Result {
        let (refused, difference) = self.refused();
        let words = RefusedJob {
            refused,
            unit: "exchange",
            names: &EXCHANGES,
        };
        write!(f, "{words}")?;
        match difference {
            None => Ok(()),
            Some(index) => write!(f, "; first difference at index {index}"),
        }
    }
}

impl Error for OrderFault {}
