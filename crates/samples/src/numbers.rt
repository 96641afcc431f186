ghost use Rattle.std.specs.Prelude.{◌≡◌, true, false, IfOk, IfErr};
ghost use Rattle.base.specs.RegistrationNumbers.{checks};

use crate::fault::SampleFault;
use base::RegistrationNumber;

// The number of the gearbox tag: family code 2Dh, a serial number and the right check byte; and the same with a wrong one.
pub const GEARBOX: u64 = 0x6101_0000_0036_472D;

pub const WRONG_GEARBOX: u64 = 0x6201_0000_0036_472D;

// Six 00h, 01h, and the right check byte 5Eh; and the same with 5Fh.
pub const SEALED: u64 = 0x5E01_0000_0000_0000;

pub const WRONG_SEALED: u64 = 0x5F01_0000_0000_0000;

pub const PLUG: u64 = 0;

// The clutch values of a gearbox.
pub const CLUTCH: [u8; 8] = [0x12, 0x5A, 0x03, 0xE8, 0x0B, 0xB8, 0x00, 0x64];

// The number of the gearbox tag.
#[tactic(auto, using(crate::proofs::Sums::right_sums))]
pub fn gearbox_number() -> RegistrationNumber
    ensures { result.word ≡ GEARBOX }
{
    RegistrationNumber::try_from(GEARBOX).unwrap()
}

// The number of a sealed tag.
#[tactic(auto, using(crate::proofs::Sums::right_sums))]
pub fn sealed_number() -> RegistrationNumber
    ensures { result.word ≡ SEALED }
{
    RegistrationNumber::try_from(SEALED).unwrap()
}

// The number of a practice plug.
#[tactic(auto, using(crate::proofs::Sums::right_sums))]
pub fn plug_number() -> RegistrationNumber
    ensures { result.word ≡ PLUG }
{
    RegistrationNumber::try_from(PLUG).unwrap()
}

// The number in a word; the wrong words above have none.
#[tactic(auto, using(crate::proofs::Sums::wrong_sums))]
pub fn number_of(word: u64) -> Result<RegistrationNumber, SampleFault>
    ensures ok { IfOk result (λ n. (n.word ≡ word) × (checks word ≡ true)) }
    ensures err { IfErr result (λ e. (e ≡ SampleFault.NoNumber) × (checks word ≡ false)) }
    ensures wrong { (checks WRONG_GEARBOX ≡ false) × (checks WRONG_SEALED ≡ false) }
{
    Ok(RegistrationNumber::try_from(word)?)
}
