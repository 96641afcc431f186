ghost use Rattle.std.specs.Prelude.{◌≡◌, ℕ};
ghost use Rattle.base.specs.Shifting.{shifted};

// A word that takes bits from above: its lowest bit leaves it, and the new one is its highest.
pub trait ShiftIn: Sized {
    // What its highest bit counts.
    ghost top: { ℕ };

    ghost value: { Self → ℕ };

    fn shift_in(self, bit: bool) -> Self
        ensures { value result ≡ shifted top (value self) bit };
}

impl ShiftIn for u8 {
    ghost top = { 0x80 };

    ghost value = { λ x. x };

    fn shift_in(self, bit: bool) -> u8 {
        if bit { self / 2 + 0x80 } else { self / 2 }
    }
}

impl ShiftIn for u64 {
    ghost top = { 0x8000000000000000 };

    ghost value = { λ x. x };

    fn shift_in(self, bit: bool) -> u64 {
        if bit {
            self / 2 + 0x8000_0000_0000_0000
        } else {
            self / 2
        }
    }
}
