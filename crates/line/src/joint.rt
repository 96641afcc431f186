ghost use Rattle.std.specs.Prelude.{◌≡◌, ◌++◌};

use crate::line::Line;

// Two lines joined.
#[derive(Drop)]
pub struct Joint<A, B> {
    left: A,
    right: B,
}

impl<A: Line, B: Line> Joint<A, B> {
    pub fn new(left: A, right: B) -> Joint<A, B>
        ensures { A.Line.chips result.left ++ B.Line.chips result.right ≡ A.Line.chips left ++ B.Line.chips right }
    {
        Joint { left, right }
    }
}

impl<A: Line, B: Line> Line for Joint<A, B> {
    ghost chips = { λ j. A.Line.chips j.left ++ B.Line.chips j.right };

    fn reset(&mut self) {
        self.left.reset();
        self.right.reset();
    }

    fn take(&mut self, bit: bool) {
        self.left.take(bit);
        self.right.take(bit);
    }

    fn dwell(&mut self) {
        self.left.dwell();
        self.right.dwell();
    }

    fn cut(&mut self, mask: u64) {
        self.left.cut(mask);
        self.right.cut(mask);
    }

    fn power_up(&mut self) {
        self.left.power_up();
        self.right.power_up();
    }

    fn presence(&self) -> bool {
        self.left.presence() | self.right.presence()
    }

    fn pull(&self) -> bool {
        self.left.pull() & self.right.pull()
    }

    fn is_busy(&self) -> bool {
        self.left.is_busy() | self.right.is_busy()
    }
}
