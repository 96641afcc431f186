ghost use Rattle.std.specs.Prelude.{◌≡◌, ℕ, List, [], take, Err};
ghost use Rattle.wire.specs.Exchanges.{refused_report};
ghost use Rattle.wire.specs.Jobs.{Report};
ghost use Rattle.rom_search.specs.SearchOutcomes.{search_answer};
ghost use Rattle.rom_search.specs.declared.search_fault.SearchFault.TheVariants.{Exchange};

use base::Refusal;
use std::error::Error;
use std::fmt;
use wire::{ExchangeFault, Refused, RefusedJob};

// Why a search was refused or failed; the passes are counted as exchanges are.
#[derive(Clone, Copy, Debug, PartialEq, Eq)]
pub enum SearchFault {
    NoPlace,
    Full { passes: u8, steps: u32 },
    Exchange(ExchangeFault),
}

impl SearchFault {
    // The refusal, the pass and the steps made.
    pub fn refused(&self) -> Refused
        ensures { ◌≡◌ {A = Report ℕ} (refused_report result) (search_answer (Err self.now) []).0 }
    {
        match self {
            SearchFault::NoPlace => Refused::at_once(Refusal::NoPlace),
            SearchFault::Full { passes, steps } => Refused {
                refusal: Refusal::NoPlace,
                exchange: *passes,
                steps: *steps,
            },
            SearchFault::Exchange(fault) => fault.refused(),
        }
    }

    // How many of the lent places it has filled, from the first on: one in each pass that came to its end.
    pub fn found(&self) -> u8
        ensures { (places : List ℕ) → (search_answer (Err self.now) places).1 ≡ take result places }
    {
        match self {
            SearchFault::NoPlace | SearchFault::Exchange(ExchangeFault::Rig(_)) => 0,
            SearchFault::Full { passes, .. } => *passes,
            SearchFault::Exchange(ExchangeFault::Failed { exchange, .. }) =>
                exchange.saturating_sub(1),
        }
    }
}

impl From<ExchangeFault> for SearchFault {
    ghost from_gives = { λ e r. r ≡ Exchange e };

    fn from(e: ExchangeFault) -> SearchFault {
        SearchFault::Exchange(e)
    }
}

impl fmt::Display for SearchFault {
    fn fmt<W: fmt::Write>(&self, f: &mut fmt::Formatter<W>) -> fmt::Result {
        let words = RefusedJob {
            refused: self.refused(),
            unit: "pass",
            names: &[],
        };
        write!(f, "{words}")
    }
}

impl Error for SearchFault {}
