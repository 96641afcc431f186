// Bytes and exchanges over a rig.
#![tactic(auto)]

pub mod bytes;
pub mod exchange_fault;
pub mod exchange_name;
pub mod opening;
pub mod refused_job;
pub mod target;

pub use exchange_fault::{ExchangeError, ExchangeFault, Refused};
pub use exchange_name::ExchangeName;
pub use refused_job::RefusedJob;
pub use target::Target;
