use crate::row_offset::Offset;
use base::bit_queue::{Incoming, Outgoing};

// What a complete byte will be.
#[derive(Clone, Copy)]
pub enum Await {
    Command,
    LoadLow,
    LoadHigh,
    LoadData { offset: Offset, sum: u16 },
    CopyLow,
    CopyHigh { low: u8 },
    CopyStatus { low: u8, high: u8 },
    ReadLow,
    ReadHigh { low: u8 },
}

// What a selected chip is doing.
#[derive(Clone, Copy)]
pub enum Phase {
    Idle,
    Programming,
    Taking { what: Await, bits: Incoming },
    // AAh: the byte going out, the index of the next one, and the sum up to there.
    SendReport { next: u8, sum: u16, out: Outgoing },
    SendSum { rest: Outgoing },
    // F0h: the byte going out, and the address of the next one.
    SendMemory { next: u16, out: Outgoing },
    SendOnes,
    Alternating { bit: bool },
}
