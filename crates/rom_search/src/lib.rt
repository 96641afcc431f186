// The ROM search: the numbers on a line.
#![tactic(auto)]

pub mod job;
pub mod pass;
pub mod search_fault;
pub mod triplets;

pub use search_fault::SearchFault;
