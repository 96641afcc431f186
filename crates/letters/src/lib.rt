// The letters of the script program.
#![tactic(auto)]

pub mod script;
pub mod stream;
