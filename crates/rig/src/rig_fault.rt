ghost use Rattle.std.specs.Prelude.{◌≡◌};
ghost use Rattle.base.specs.Refusals.{code_of};
ghost use Rattle.rig.specs.RigModel.{refusal, steps_made};

use crate::steps::AfterSteps;
use base::Refusal;
use std::error::Error;
use std::fmt;

// Why a rig refuses a pulse.
#[derive(Clone, Copy, Debug, PartialEq, Eq)]
pub enum RigFault {
    // With the steps that the rig has counted so far: in a job those of the job, 0 before any.
    LineBusy { steps: u32 },
}

impl RigFault {
    // The steps made before it.
    pub fn steps(&self) -> u32
        ensures { result ≡ steps_made self.now }
    {
        match self {
            RigFault::LineBusy { steps } => *steps,
        }
    }

    // The refusal that it is told as.
    pub fn refusal(&self) -> Refusal
        ensures { code_of result ≡ refusal self.now }
    {
        match self {
            RigFault::LineBusy { .. } => Refusal::LineBusy,
        }
    }
}

impl fmt::Display for RigFault {
    fn fmt<W: fmt::Write>(&self, f: &mut fmt::Formatter<W>) -> fmt::Result {
        let refusal = self.refusal();
        let after = AfterSteps(self.steps());
        write!(f, "{refusal}; {after}")
    }
}

impl Error for RigFault {}
