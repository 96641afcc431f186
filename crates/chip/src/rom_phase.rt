use base::bit_queue::{Incoming, Outgoing};

// What a powered chip is doing with its number.
#[derive(Clone, Copy)]
pub enum RomPhase {
    Idle,
    Command { bits: Incoming },
    SendRom { rest: Outgoing },
    MatchBits { rest: Outgoing },
    SearchBit { rest: Outgoing },
    SearchComplement { rest: Outgoing },
    SearchDirection { rest: Outgoing },
    // The memory phase: the memory behind the number takes the bits.
    Selected,
}

// What a chip has while it has power: RC, and what it is doing with its number.
#[derive(Clone, Copy)]
pub struct Live {
    pub rc: bool,
    pub phase: RomPhase,
}
