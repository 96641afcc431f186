ghost use Rattle.std.specs.Prelude.{◌≡◌};
ghost use Rattle.std.specs.List.{flat_map};

use crate::line::Line;

// Lines joined to one, in their sequence.
#[derive(Drop)]
pub struct LineArray<L, const N: usize> {
    lines: [L; N],
}

impl<L: Line, const N: usize> LineArray<L, N> {
    pub fn new(lines: [L; N]) -> LineArray<L, N>
        ensures { result.lines ≡ lines }
    {
        LineArray { lines }
    }
}

impl<L: Line, const N: usize> Line for LineArray<L, N> {
    ghost chips = { λ m. flat_map L.Line.chips m.lines };

    fn reset(&mut self) {
        for line in self.lines.iter_mut() {
            line.reset();
        }
    }

    fn take(&mut self, bit: bool) {
        for line in self.lines.iter_mut() {
            line.take(bit);
        }
    }

    fn dwell(&mut self) {
        for line in self.lines.iter_mut() {
            line.dwell();
        }
    }

    fn cut(&mut self, mask: u64) {
        for line in self.lines.iter_mut() {
            line.cut(mask);
        }
    }

    fn power_up(&mut self) {
        for line in self.lines.iter_mut() {
            line.power_up();
        }
    }

    fn presence(&self) -> bool {
        self.lines.iter().any(|line| line.presence())
    }

    fn pull(&self) -> bool {
        self.lines.iter().all(|line| line.pull())
    }

    fn is_busy(&self) -> bool {
        self.lines.iter().any(|line| line.is_busy())
    }
}
