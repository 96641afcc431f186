ghost use Rattle.std.specs.Prelude.{◌≡◌};
ghost use Rattle.base.specs.Refusals.{code_of};

use std::fmt;

// Why something asked is refused.
#[derive(Clone, Copy, Debug, PartialEq, Eq)]
pub enum Refusal {
    WrongSum = 1,
    WrongLength = 2,
    LineBusy = 3,
    BadRow = 4,
    NoPresence = 5,
    Garbled = 6,
    DataDiffer = 7,
    NotHeld = 8,
    NoPlace = 9,
}

impl Refusal {
    pub fn code(&self) -> u8
        ensures { result ≡ code_of self.now }
    {
        *self as u8
    }

    fn meaning(&self) -> &'static str {
        match self {
            Refusal::WrongSum => "the check byte is wrong",
            Refusal::WrongLength => "the image is not of the kind's length",
            Refusal::LineBusy => "a tag on the line is programming",
            Refusal::BadRow => "the row is not a multiple of 8",
            Refusal::NoPresence => "no tag answers the reset",
            Refusal::Garbled => "what came back is not what a tag sends",
            Refusal::DataDiffer => "the scratchpad differs from the data sent",
            Refusal::NotHeld => "the row found differs from the row ordered",
            Refusal::NoPlace => "no place is left for a number",
        }
    }
}

// Its code and what it means, in the words of its rule.
impl fmt::Display for Refusal {
    fn fmt<W: fmt::Write>(&self, f: &mut fmt::Formatter<W>) -> fmt::Result {
        let code = self.code();
        let meaning = self.meaning();
        write!(f, "{code}, {meaning}")
    }
}
