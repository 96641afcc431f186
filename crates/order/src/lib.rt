// The verified order of eight bytes to a row.
#![tactic(auto)]

pub mod differences;
pub mod exchanges;
pub mod job;
pub mod order_fault;

pub use order_fault::OrderFault;
