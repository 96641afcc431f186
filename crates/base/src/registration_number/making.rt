ghost use Rattle.std.specs.Prelude.{◌≡◌};
ghost use Rattle.base.specs.Bits.{byte_of};
ghost use Rattle.base.specs.Refusals.{code_of};
ghost use Rattle.base.specs.RegistrationNumbers.{IsChecked, checks, making, word_bytes};
ghost use Rattle.base.specs.NumberMaking.{made_of, refusal};

use crate::crc::crc8;
use crate::hex::Hex;
use crate::refusal::Refusal;
use crate::registration_number::{RegistrationNumber, RegistrationNumberFault};
use std::error::Error;
use std::fmt;

// The check byte is the CRC-8 of the seven bytes before it.
fn right_sum(word: u64) -> bool
    ensures { result ≡ checks word }
{
    let bytes = word.to_le_bytes();
    crc8(&bytes[0..7]) == bytes[7]
}

// The number in a word, if its check byte is right; else refusal 1.
impl TryFrom<u64> for RegistrationNumber {
    type Error = RegistrationNumberFault;

    ghost try_from_gives = { λ word number. made_of number ≡ making word };

    fn try_from(word: u64) -> Result<RegistrationNumber, RegistrationNumberFault> {
        if right_sum(word) {
            Ok(RegistrationNumber { word })
        } else {
            Err(RegistrationNumberFault::WrongSum)
        }
    }
}

impl RegistrationNumber {
    pub fn word(&self) -> u64
        ensures value { result ≡ self.now.word }
        ensures checked { IsChecked result }
    {
        self.word
    }

    // Its eight bytes in the sequence in which they travel.
    pub fn bytes(&self) -> [u8; 8]
        ensures { result ≡ word_bytes self.now.word }
    {
        let word = self.word();
        word.to_le_bytes()
    }

    pub fn family(&self) -> u8
        ensures { result ≡ byte_of self.now.word 0 }
    {
        self.bytes()[0]
    }
}

// Its eight bytes in hexadecimal, in the sequence in which they travel.
impl fmt::Display for RegistrationNumber {
    fn fmt<W: fmt::Write>(&self, f: &mut fmt::Formatter<W>) -> fmt::Result {
        let bytes = self.bytes();
        let hex = Hex(&bytes);
        write!(f, "{hex}")
    }
}

impl RegistrationNumberFault {
    // The refusal that it is told as.
    pub fn refusal(&self) -> Refusal
        ensures { code_of result ≡ refusal self.now }
    {
        match self {
            RegistrationNumberFault::WrongSum => Refusal::WrongSum,
        }
    }
}

impl fmt::Display for RegistrationNumberFault {
    fn fmt<W: fmt::Write>(&self, f: &mut fmt::Formatter<W>) -> fmt::Result {
        let refusal = self.refusal();
        write!(f, "{refusal}")
    }
}

impl Error for RegistrationNumberFault {}
