ghost use Rattle.std.specs.Prelude.{◌≡◌};
ghost use Rattle.samples.specs.declared.fault.SampleFault.TheVariants.{NoNumber, NoTag};

use base::registration_number::RegistrationNumberFault;
use kinds::ImageFault;
use std::error::Error;
use std::fmt;

// Why a sample is not made: a word that is no number, or an image that is not of the kind's length.
#[derive(Clone, Copy, Debug, PartialEq, Eq)]
pub enum SampleFault {
    NoNumber,
    NoTag,
}

impl fmt::Display for SampleFault {
    fn fmt<W: fmt::Write>(&self, f: &mut fmt::Formatter<W>) -> fmt::Result {
        f.write_str(match self {
            SampleFault::NoNumber => "no number",
            SampleFault::NoTag => "no tag",
        })
    }
}

impl Error for SampleFault {}

impl From<RegistrationNumberFault> for SampleFault {
    ghost from_gives = { λ _ e. e ≡ NoNumber };

    fn from(_e: RegistrationNumberFault) -> SampleFault {
        Self::NoNumber
    }
}

impl From<ImageFault> for SampleFault {
    ghost from_gives = { λ _ e. e ≡ NoTag };

    fn from(_e: ImageFault) -> SampleFault {
        Self::NoTag
    }
}
