ghost use Rattle.std.specs.Prelude.{◌≡◌, true, false};
ghost use Rattle.rig.specs.Rigs.{reset_pulse, slot_pulse, dwell_pulse, pulse, made_rig, cut_rig, power_rig, set_fuse, counted};
ghost use Rattle.rig.specs.RigModel.{rig_of, counting, CountBegins, counted_pulse, cuts_now, lowered_fuse, cut_by};

use crate::rig_fault::RigFault;
use line::Line;

// Cuts power at the step that comes after `count` more, with a mask.
#[derive(Clone, Copy, Debug, PartialEq, Eq)]
pub struct Fuse {
    pub count: u32,
    pub mask: u64,
}

// A line with a fuse, and the steps since they were last set to 0.
#[derive(Drop)]
pub struct Rig<L> {
    line: L,
    fuse: Option<Fuse>,
    steps: u32,
}

impl<L: Line> Rig<L> {
    // A rig with no fuse.
    pub fn new(line: L) -> Rig<L>
        ensures { counting L.chips result ≡ record { rig = made_rig (L.chips line); steps = 0 } }
    {
        Rig {
            line,
            fuse: None,
            steps: 0,
        }
    }

    pub fn steps(&self) -> u32
        ensures { result ≡ (counting L.chips self.now).steps }
    {
        self.steps
    }

    // The line, lent, so that it can be asked without a step.
    pub fn line(&self) -> &L
        ensures { result.now ≡ self.now.line }
    {
        &self.line
    }

    // Gives the line back as it stands; the fuse and the count of steps go with the rig.
    pub fn into_line(self) -> L
        ensures { result ≡ self.line }
    {
        self.line
    }

    // The fuse that is set, with the steps that it still lets pass.
    pub fn fuse(&self) -> Option<Fuse>
        ensures { result ≡ self.now.fuse }
    {
        self.fuse
    }

    // Sets the steps to 0.
    pub fn begin_count(&mut self)
        ensures { counting L.chips self.new ≡ record { rig = rig_of L.chips self.old; steps = 0 } }
    {
        self.steps = 0;
    }

    // A job begins, its steps counted from 0; refusal 3 while the line is busy, with all unchanged.
    pub fn begin_job(&mut self) -> Result<(), RigFault>
        ensures { CountBegins (counting L.chips self.old) (counting L.chips self.new) result }
    {
        if self.line.is_busy() {
            return Err(RigFault::LineBusy { steps: 0 });
        }
        self.begin_count();
        Ok(())
    }

    pub fn power_up(&mut self)
        ensures { counting L.chips self.new ≡ record { rig = power_rig (rig_of L.chips self.old); steps = self.old.steps } }
    {
        self.line.power_up();
    }

    pub fn cut(&mut self, mask: u64)
        ensures { counting L.chips self.new ≡ record { rig = cut_rig mask (rig_of L.chips self.old); steps = self.old.steps } }
    {
        self.line.cut(mask);
    }

    // Replaces the fuse.
    pub fn set_fuse(&mut self, fuse: Fuse)
        ensures { counting L.chips self.new ≡ record { rig = set_fuse fuse.count fuse.mask (rig_of L.chips self.old); steps = self.old.steps } }
    {
        self.fuse = Some(fuse);
    }

    // Counts a step and lowers the fuse; says whether the step becomes a cut, which is then made.
    fn count_step(&mut self) -> bool
        ensures answer { result ≡ cuts_now self.old.fuse }
        ensures fuse { self.new.fuse ≡ lowered_fuse self.old.fuse }
        ensures line { L.chips self.new.line ≡ cut_by self.old.fuse (L.chips self.old.line) }
        ensures kept { cuts_now self.old.fuse ≡ false → self.new.line ≡ self.old.line }
        ensures steps { self.new.steps ≡ counted self.old.steps }
    {
        self.steps = self.steps.saturating_add(1);
        match self.fuse {
            None => false,
            Some(Fuse { count: 0, mask }) => {
                self.line.cut(mask);
                self.fuse = None;
                true
            }
            Some(Fuse { count, mask }) => {
                self.fuse = Some(Fuse {
                    count: count - 1,
                    mask,
                });
                false
            }
        }
    }

    // Presence; refusal 3 while the line is busy.
    pub fn reset(&mut self) -> Result<bool, RigFault>
        ensures { (counting L.chips self.new, result) ≡ counted_pulse reset_pulse (counting L.chips self.old) }
    {
        if self.line.is_busy() {
            return Err(RigFault::LineBusy { steps: self.steps });
        }
        if self.count_step() {
            return Ok(false);
        }
        let present = self.line.presence();
        self.line.reset();
        Ok(present)
    }

    // The master's bit AND the pull, which the line takes; refusal 3 while the line is busy.
    #[inline(always)]
    pub fn slot(&mut self, bit: bool) -> Result<bool, RigFault>
        ensures { (counting L.chips self.new, result) ≡ counted_pulse (slot_pulse bit) (counting L.chips self.old) }
    {
        if self.line.is_busy() {
            return Err(RigFault::LineBusy { steps: self.steps });
        }
        if self.count_step() {
            return Ok(bit);
        }
        let seen = bit & self.line.pull();
        self.line.take(seen);
        Ok(seen)
    }

    pub fn dwell(&mut self)
        ensures { counting L.chips self.new ≡ record { rig = (pulse dwell_pulse (rig_of L.chips self.old)).0; steps = counted self.old.steps } }
    {
        if !self.count_step() {
            self.line.dwell();
        }
    }
}
