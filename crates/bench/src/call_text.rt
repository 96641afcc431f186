use crate::counted::Counted;
use base::{Hex, RegistrationNumber};
use history::Call;
use kinds::row::ROW;
use rig::Fuse;
use std::fmt;

// What is asked. A call is data: one arm for each.
#[derive(Clone, Copy)]
pub struct CallText(pub Call);

impl fmt::Display for CallText {
    fn fmt<W: fmt::Write>(&self, f: &mut fmt::Formatter<W>) -> fmt::Result {
        match self.0 {
            Call::Reset => f.write_str("Reset"),
            Call::Slot(false) => f.write_str("Slot with 0"),
            Call::Slot(true) => f.write_str("Slot with 1"),
            Call::Dwell => f.write_str("Dwell"),
            Call::Cut(mask) => write!(f, "Cut power with mask {}", Hex(&mask.to_le_bytes())),
            Call::PowerUp => f.write_str("Power up"),
            Call::SetFuse(fuse) => say_fuse(f, fuse),
            Call::Search { places } => {
                let places = Counted(places, "place");
                write!(
                    f,
                    "Search for the numbers on the line, with {places} for them"
                )
            }
            Call::Read { number, row } => {
                write!(f, "Read row {row:04X}h of tag {}", Hex(&number.bytes()))
            }
            Call::Order { number, row, new } => say_order(f, number, row, new),
        }
    }
}

// A fuse at 0 cuts power at the very next step.
fn say_fuse<W: fmt::Write>(f: &mut fmt::Formatter<W>, fuse: Fuse) -> fmt::Result {
    let step = fuse.count as u64 + 1;
    write!(
        f,
        "Set the fuse so that power will fail at step {step} from now, with mask {}",
        Hex(&fuse.mask.to_le_bytes())
    )
}

fn say_order<W: fmt::Write>(
    f: &mut fmt::Formatter<W>,
    number: RegistrationNumber,
    row: u16,
    new: [u8; ROW],
) -> fmt::Result {
    let tag = number.bytes();
    write!(
        f,
        "Order to write {} to row {row:04X}h of tag {}",
        Hex(&new),
        Hex(&tag)
    )
}
