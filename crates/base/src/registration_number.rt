ghost use Rattle.std.specs.Prelude.{◌^◌, ◌<◌};
ghost use Rattle.base.specs.RegistrationNumbers.{IsChecked};

pub mod making;

// A registration number: family code, six serial bytes and the CRC-8 of those seven, the family code in the lowest byte.
// Whoever holds one learns from its ghost fields that its check byte is right.
#[derive(Clone, Copy, Debug, PartialEq, Eq)]
pub struct RegistrationNumber {
    word: u64,
    ghost checked: { IsChecked word },
    ghost wide: { word < 2 ^ 64 },
}

// Why no number is made.
#[derive(Clone, Copy, Debug, PartialEq, Eq)]
pub enum RegistrationNumberFault {
    WrongSum,
}
