// The reading of a row.
#![tactic(auto)]

pub mod exchanges;
pub mod job;
pub mod read_fault;

pub use read_fault::ReadFault;
