ghost use Rattle.std.specs.Prelude.{◌≡◌};
ghost use Rattle.memory.specs.Memories.{Memory, power_up_memory, select_memory, take_memory, pull_memory, programming_memory, dwell_memory, cut_memory};

// What a chip does once it is selected.
pub trait Protocol {
    ghost memory: { Self → Memory };

    // Power has come.
    fn power_up(&mut self)
        ensures { memory self.new ≡ power_up_memory (memory self.old) };

    // The memory phase begins.
    fn select(&mut self)
        ensures { memory self.new ≡ select_memory (memory self.old) };

    // A bit is taken in the memory phase.
    fn take(&mut self, bit: bool)
        ensures { memory self.new ≡ take_memory (memory self.old) bit };

    // The bit that it pulls, true where it pulls nothing.
    fn pull(&self) -> bool
        ensures { result ≡ pull_memory (memory self.now) };

    fn is_programming(&self) -> bool
        ensures { result ≡ programming_memory (memory self.now) };

    // Ends a programming.
    fn dwell(&mut self)
        ensures { memory self.new ≡ dwell_memory (memory self.old) };

    // Power fails: a row being programmed takes what the mask lets through.
    fn cut(&mut self, mask: u64)
        ensures { memory self.new ≡ cut_memory (memory self.old) mask };
}
