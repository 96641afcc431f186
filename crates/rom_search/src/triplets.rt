ghost use Rattle.std.specs.Prelude.{◌≡◌, None};
ghost use Rattle.base.specs.Bits.{odd};
ghost use Rattle.rig.specs.RigModel.{counting};
ghost use Rattle.wire.specs.Outcomes.{does};
ghost use Rattle.rom_search.specs.Triplets.{triplets_along, triplet_of, direction_taken, after_triplet};

use base::shift_in::ShiftIn;
use line::Line;
use rig::{Rig, RigFault};

// What a pass met: a number, and the path of the next pass, unless none is open.
#[derive(Clone, Copy, Debug, PartialEq, Eq)]
pub struct Pass {
    pub number: u64,
    pub next: Option<u64>,
}

// The bits that are there, of the numbers that still listen.
#[derive(Clone, Copy, Debug, PartialEq, Eq)]
enum Triplet {
    Only(bool),
    Both,
}

impl Triplet {
    // From a slot that read all bits joined, and one that read their opposites joined; nothing where nobody answered.
    fn of(a: bool, b: bool) -> Option<Triplet>
        ensures { result ≡ triplet_of a b }
    {
        match (a, b) {
            (true, true) => None,
            (true, false) => Some(Triplet::Only(true)),
            (false, true) => Some(Triplet::Only(false)),
            (false, false) => Some(Triplet::Both),
        }
    }
}

// A pass under way: what is left of its path, the number so far, and the path of the next pass so far.
#[derive(Clone, Copy, Debug, PartialEq, Eq)]
struct PassState {
    pub path: u64,
    pub number: u64,
    pub next: Option<u64>,
}

impl PassState {
    // The bit to take: the one that is there, or where both are, the path's.
    fn choose(&self, triplet: Triplet) -> bool
        ensures { result ≡ direction_taken triplet (odd self.now.path) }
    {
        match triplet {
            Triplet::Only(bit) => bit,
            Triplet::Both => self.path % 2 == 1,
        }
    }

    // The next path turns at the last bit where 0 was taken and 1 was there too.
    fn take(self, triplet: Triplet, bit: bool) -> PassState
        ensures { result ≡ after_triplet self triplet bit }
    {
        let next = match (triplet, bit) {
            (Triplet::Both, false) => Some(self.number.shift_in(true)),
            _ => self.next.map(|next| next / 2),
        };
        PassState {
            path: self.path / 2,
            number: self.number.shift_in(bit),
            next,
        }
    }
}

// The 64 triples of a pass along a path; nothing where both bits were 1.
pub fn follow_path<L: Line>(rig: &mut Rig<L>, start: u64) -> Result<Option<Pass>, RigFault>
    ensures { (counting L.chips rig.new, result) ≡ does (triplets_along start) (counting L.chips rig.old) }
{
    let mut state = PassState {
        path: start,
        number: 0,
        next: None,
    };
    for _ in 0..u64::BITS {
        let a = rig.slot(true)?;
        let b = rig.slot(true)?;
        let Some(triplet) = Triplet::of(a, b) else {
            return Ok(None);
        };
        let bit = state.choose(triplet);
        rig.slot(bit)?;
        state = state.take(triplet, bit);
    }
    Ok(Some(Pass {
        number: state.number,
        next: state.next,
    }))
}
