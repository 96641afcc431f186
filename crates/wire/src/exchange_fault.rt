ghost use Rattle.std.specs.Prelude.{◌≡◌};
ghost use Rattle.rig.specs.RigModel.{counting};
ghost use Rattle.base.specs.Refusals.{code_of};
ghost use Rattle.wire.specs.Jobs.{Report};
ghost use Rattle.wire.specs.Exchanges.{error_code, fault_report, refused_report};
ghost use Rattle.wire.specs.declared.exchange_fault.ExchangeFault.TheVariants.{Rig, Failed};

use base::Refusal;
use line::Line;
use rig::{AfterSteps, Rig, RigFault};
use std::error::Error;
use std::fmt;

// What an exchange found wrong.
#[derive(Clone, Copy, Debug, PartialEq, Eq)]
pub enum ExchangeError {
    NoPresence,
    Garbled,
}

// Why an exchange failed: refused by the rig, or what it found, with its number in the job and the steps made.
#[derive(Clone, Copy, Debug, PartialEq, Eq)]
pub enum ExchangeFault {
    Rig(RigFault),
    Failed {
        error: ExchangeError,
        exchange: u8,
        steps: u32,
    },
}

// What a refused job tells: the refusal, the exchange or pass, and the steps made.
// Exchange 0 is before any step, a number that the rules give and programs print.
#[derive(Clone, Copy, Debug, PartialEq, Eq)]
pub struct Refused {
    pub refusal: Refusal,
    pub exchange: u8,
    pub steps: u32,
}

impl Refused {
    // Refused before any step.
    pub fn at_once(refusal: Refusal) -> Refused
        ensures { (result.refusal ≡ refusal) × (result.exchange ≡ 0) × (result.steps ≡ 0) }
    {
        Refused {
            refusal,
            exchange: 0,
            steps: 0,
        }
    }
}

impl ExchangeError {
    // The refusal that it is told as.
    pub fn refusal(&self) -> Refusal
        ensures { code_of result ≡ error_code self.now }
    {
        match self {
            ExchangeError::NoPresence => Refusal::NoPresence,
            ExchangeError::Garbled => Refusal::Garbled,
        }
    }
}

impl ExchangeFault {
    // What an exchange found wrong, with the steps made so far.
    pub fn found<L: Line>(rig: &Rig<L>, error: ExchangeError, exchange: u8) -> ExchangeFault
        ensures { result ≡ Failed error exchange (counting L.chips rig.now).steps }
    {
        ExchangeFault::Failed {
            error,
            exchange,
            steps: rig.steps(),
        }
    }

    pub fn refused(&self) -> Refused
        ensures { ◌≡◌ {A = Report (Unit {0})} (refused_report result) (fault_report self.now) }
    {
        match self {
            ExchangeFault::Rig(fault) => Refused {
                refusal: fault.refusal(),
                exchange: 0,
                steps: fault.steps(),
            },
            ExchangeFault::Failed {
                error,
                exchange,
                steps,
            } => Refused {
                refusal: error.refusal(),
                exchange: *exchange,
                steps: *steps,
            },
        }
    }
}

impl From<RigFault> for ExchangeFault {
    ghost from_gives = { λ e r. r ≡ Rig e };

    fn from(e: RigFault) -> ExchangeFault {
        ExchangeFault::Rig(e)
    }
}

impl fmt::Display for ExchangeError {
    fn fmt<W: fmt::Write>(&self, f: &mut fmt::Formatter<W>) -> fmt::Result {
        let refusal = self.refusal();
        write!(f, "{refusal}")
    }
}

impl Error for ExchangeError {}

// Its exchange is worded by the fault of the job, which knows what it is called.
impl fmt::Display for ExchangeFault {
    fn fmt<W: fmt::Write>(&self, f: &mut fmt::Formatter<W>) -> fmt::Result {
        let Refused { refusal, steps, .. } = self.refused();
        write!(f, "{refusal}; {}", AfterSteps(steps))
    }
}

impl Error for ExchangeFault {}
