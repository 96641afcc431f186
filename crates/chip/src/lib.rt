// A chip: its power, and the commands on its number.
#![tactic(auto)]

pub mod chip;
pub mod rom_command;
pub mod rom_phase;

pub use chip::Chip;
pub use rom_command::RomCommand;
