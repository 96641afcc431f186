ghost use Rattle.std.specs.Prelude.{◌≡◌};
ghost use Rattle.kinds.specs.Kinds.{blend};

// The bytes of a row.
pub const ROW: usize = 8;

// The mask that takes all bits of a row.
pub const WHOLE_ROW: u64 = 0xffff_ffff_ffff_ffff;

// The new bits where the mask has ones, the old bits elsewhere.
pub fn blend(mask: u8, new: u8, old: u8) -> u8
    ensures { result ≡ blend mask new old }
{
    old ^ ((old ^ new) & mask)
}
