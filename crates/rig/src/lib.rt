// The rig: a line with a fuse, as a master drives it.
#![tactic(auto)]

pub mod rig;
pub mod rig_fault;
pub mod steps;

pub use rig::{Fuse, Rig};
pub use rig_fault::RigFault;
pub use steps::{AfterSteps, Steps};
