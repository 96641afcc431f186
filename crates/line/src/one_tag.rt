ghost use Rattle.std.specs.Prelude.{◌≡◌, [], ◌∷◌};
ghost use Rattle.chip.specs.ChipStates.{made_chip};
ghost use Rattle.chip.specs.ChipModel.{model};

use crate::line::Line;
use base::RegistrationNumber;
use chip::Chip;
use memory::Protocol;

// One tag, whatever its memory.
#[derive(Drop)]
pub struct OneTag<P> {
    chip: Chip<P>,
}

impl<P: Protocol> OneTag<P> {
    // A tag without power.
    pub fn new(number: RegistrationNumber, memory: P) -> OneTag<P>
        ensures { model P.memory result.chip ≡ made_chip number.word (P.memory memory) }
    {
        OneTag {
            chip: Chip::new(number, memory),
        }
    }
}

impl<P: Protocol> Line for OneTag<P> {
    ghost chips = { λ t. model P.Protocol.memory t.chip ∷ [] };

    fn reset(&mut self) {
        self.chip.reset();
    }

    #[inline(always)]
    fn take(&mut self, bit: bool) {
        self.chip.take(bit);
    }

    fn dwell(&mut self) {
        self.chip.dwell();
    }

    fn cut(&mut self, mask: u64) {
        self.chip.cut(mask);
    }

    fn power_up(&mut self) {
        self.chip.power_up();
    }

    fn presence(&self) -> bool {
        self.chip.has_power()
    }

    fn pull(&self) -> bool {
        self.chip.pull()
    }

    fn is_busy(&self) -> bool {
        self.chip.is_busy()
    }
}
