ghost use Rattle.std.specs.Prelude.{◌≡◌, ◌+◌, ◌%◌, ◌<◌, MatchOption};

// An offset within a row: 0 to 7.
#[derive(Clone, Copy)]
pub struct Offset {
    at: u8,
    ghost within: { at < 8 },
}

impl Offset {
    // The offset of an address in its row, by its low byte.
    pub fn of(low: u8) -> Offset
        ensures { result.at ≡ low % 8 }
    {
        Offset { at: low % 8 }
    }

    pub fn at(&self) -> u8
        ensures value { result ≡ self.now.at }
        ensures within { result < 8 }
    {
        self.at
    }

    // The next offset, or none after the last.
    pub fn next(self) -> Option<Offset>
        ensures { MatchOption result (self.at ≡ 7) (λ o. (o.at ≡ self.at + 1) × (self.at < 7)) }
    {
        if self.at < 7 {
            Some(Offset { at: self.at + 1 })
        } else {
            None
        }
    }
}
