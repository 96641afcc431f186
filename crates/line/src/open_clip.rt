ghost use Rattle.std.specs.Prelude.{[]};

use crate::line::Line;

// A clip with nothing on it.
#[derive(Drop)]
pub struct OpenClip;

impl Line for OpenClip {
    ghost chips = { λ _. [] };

    fn reset(&mut self) {}

    fn take(&mut self, _bit: bool) {}

    fn dwell(&mut self) {}

    fn cut(&mut self, _mask: u64) {}

    fn power_up(&mut self) {}

    fn presence(&self) -> bool {
        false
    }

    fn pull(&self) -> bool {
        true
    }

    fn is_busy(&self) -> bool {
        false
    }
}
