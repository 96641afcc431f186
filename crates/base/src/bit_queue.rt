ghost use Rattle.std.specs.Prelude.{◌^◌, ◌<◌};

pub mod moves;

// The bits of a byte that have come so far: fewer than eight.
// Whoever holds them learns that from their ghost fields.
#[derive(Clone, Copy)]
pub struct Incoming {
    bits: u8,
    count: u8,
    ghost few: { count < 8 },
    ghost small: { bits < 2 ^ count },
}

// Bits still to go, at least one.
#[derive(Clone, Copy)]
pub struct Outgoing {
    word: u64,
    left: u8,
    ghost some: { 0 < left },
}
