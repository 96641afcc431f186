// Numbers, tags and lines that the programs play.
#![tactic(auto)]

pub mod fault;
pub mod numbers;
pub mod plugs;
pub mod tags;
