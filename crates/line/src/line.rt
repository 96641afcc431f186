ghost use Rattle.std.specs.Prelude.{◌≡◌, List, map};
ghost use Rattle.chip.specs.ChipStates.{ChipState, take_bit, reset_chip, dwell_chip, cut_chip, power_chip};
ghost use Rattle.line.specs.Lines.{presence, pull, any_busy};

// A line. Its meaning is the list of its chips: what it meets reaches every one of them, and they keep their sequence.
pub trait Line {
    ghost chips: { Self → List ChipState };

    fn reset(&mut self)
        ensures { chips self.new ≡ map reset_chip (chips self.old) };

    // A bit is taken.
    fn take(&mut self, bit: bool)
        ensures { chips self.new ≡ map (take_bit bit) (chips self.old) };

    fn dwell(&mut self)
        ensures { chips self.new ≡ map dwell_chip (chips self.old) };

    // Power fails, with a mask for a row that is being programmed.
    fn cut(&mut self, mask: u64)
        ensures { chips self.new ≡ map (cut_chip mask) (chips self.old) };

    fn power_up(&mut self)
        ensures { chips self.new ≡ map power_chip (chips self.old) };

    // A chip has power.
    fn presence(&self) -> bool
        ensures { result ≡ presence (chips self.now) };

    // The AND of all pulls, true where nobody pulls.
    fn pull(&self) -> bool
        ensures { result ≡ pull (chips self.now) };

    // A chip with power is programming.
    fn is_busy(&self) -> bool
        ensures { result ≡ any_busy (chips self.now) };
}
