use base::{Refusal, RegistrationNumber};
use kinds::row::ROW;
use order::OrderFault;
use reading::ReadFault;
use rig::Fuse;
use rom_search::SearchFault;
use rom_search::job::MOST_PLACES;

// What a rig can be asked; number and row apart, as the jobs take them.
#[derive(Clone, Copy, Debug, PartialEq, Eq)]
pub enum Call {
    Reset,
    Slot(bool),
    Dwell,
    Cut(u64),
    PowerUp,
    SetFuse(Fuse),
    // A search with a list of so many places of its own.
    Search {
        places: usize,
    },
    // A reading into a row of its own.
    Read {
        number: RegistrationNumber,
        row: u16,
    },
    Order {
        number: RegistrationNumber,
        row: u16,
        new: [u8; ROW],
    },
}

// What it answers; a search with its list.
#[derive(Clone, Copy, Debug, PartialEq, Eq)]
pub enum Answer {
    // The refusal alone: the count of steps that the rig's fault carries is the rig's own.
    Presence(Result<bool, Refusal>),
    Bit(Result<bool, Refusal>),
    Done,
    // As many places as a search fills: fixed memory. How many of them are numbers stands in the outcome.
    Listed {
        outcome: Result<(u8, u32), SearchFault>,
        places: [u64; MOST_PLACES],
    },
    // The row that was read, and the steps.
    Row(Result<([u8; ROW], u32), ReadFault>),
    Judged(Result<(bool, u32), OrderFault>),
}
