// Histories: lists of calls on a rig, and what none of them can break.
#![tactic(auto)]

pub mod calls;
pub mod playing;

pub use calls::{Answer, Call};
