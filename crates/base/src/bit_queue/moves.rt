ghost use Rattle.std.specs.Prelude.{◌≡◌, ◌/◌, ◌%◌, Bool, List, [], ◌∷◌, ◌++◌};
ghost use Rattle.base.specs.Bits.{bits_of, bits_all, front_bit};
ghost use Rattle.base.specs.BitQueues.{arrived, queue, Pushes, Advances};

use crate::bit_queue::{Incoming, Outgoing};

impl Incoming {
    pub fn none() -> Incoming
        ensures { arrived result ≡ [] }
    {
        Incoming { bits: 0, count: 0 }
    }

    // One more bit; the byte, once it is complete.
    pub fn push(&mut self, bit: bool) -> Option<u8>
        ensures { Pushes (arrived self.old) bit (arrived self.new) result }
    {
        let bits = self.bits | ((bit as u8) << self.count);
        if self.count < 7 {
            self.bits = bits;
            self.count += 1;
            None
        } else {
            *self = Incoming::none();
            Some(bits)
        }
    }
}

impl From<u8> for Outgoing {
    ghost from_gives = { λ byte o. queue o ≡ bits_of 8 byte };

    fn from(byte: u8) -> Outgoing {
        Outgoing {
            word: byte as u64,
            left: 8,
        }
    }
}

// Two bytes, the low one first.
impl From<u16> for Outgoing {
    ghost from_gives = { λ pair o. queue o ≡ bits_all (pair % 256 ∷ pair / 256 ∷ []) };

    fn from(pair: u16) -> Outgoing {
        Outgoing {
            word: pair as u64,
            left: 16,
        }
    }
}

impl From<u64> for Outgoing {
    ghost from_gives = { λ word o. queue o ≡ bits_of 64 word };

    fn from(word: u64) -> Outgoing {
        Outgoing { word, left: 64 }
    }
}

impl Outgoing {
    // The bit that goes now.
    pub fn bit(&self) -> bool
        ensures first { result ≡ front_bit (queue self.now) }
        ensures ahead { (ys : List Bool) → result ≡ front_bit (queue self.now ++ ys) }
    {
        self.word % 2 == 1
    }

    // Moves on to the next bit. Answers whether there is one; false, with nothing changed, at the last.
    pub fn advance(&mut self) -> bool
        ensures { Advances (queue self.old) (queue self.new) result }
    {
        if self.left > 1 {
            self.word >>= 1;
            self.left -= 1;
            true
        } else {
            false
        }
    }
}
