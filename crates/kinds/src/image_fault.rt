ghost use Rattle.std.specs.Prelude.{◌≡◌};
ghost use Rattle.base.specs.Refusals.{code_of};
ghost use Rattle.kinds.specs.ImageMaking.{refusal};

use base::Refusal;
use std::error::Error;
use std::fmt;

// Why no tag is made.
#[derive(Clone, Copy, Debug, PartialEq, Eq)]
pub enum ImageFault {
    WrongLength,
}

impl ImageFault {
    // The refusal that it is told as.
    pub fn refusal(&self) -> Refusal
        ensures { code_of result ≡ refusal self.now }
    {
        match self {
            ImageFault::WrongLength => Refusal::WrongLength,
        }
    }
}

impl fmt::Display for ImageFault {
    fn fmt<W: fmt::Write>(&self, f: &mut fmt::Formatter<W>) -> fmt::Result {
        let refusal = self.refusal();
        write!(f, "{refusal}")
    }
}

impl Error for ImageFault {}
