// Bits and check sums, registration numbers, refusals.
#![tactic(auto)]

pub mod bit_queue;
pub mod crc;
pub mod hex;
pub mod refusal;
pub mod registration_number;
pub mod shift_in;

pub use hex::Hex;
pub use refusal::Refusal;
pub use registration_number::RegistrationNumber;
