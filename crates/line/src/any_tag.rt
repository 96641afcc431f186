ghost use Rattle.std.specs.Prelude.{◌≡◌, [], ◌∷◌, None};
ghost use Rattle.line.specs.AnyTags.{rules_of, chip_of};
ghost use Rattle.line.specs.TagMaking.{placing, given};

use crate::line::Line;
use crate::one_tag::OneTag;
use crate::tag_making::tag_of;
use base::RegistrationNumber;
use kinds::{ImageFault, Kind, PracticePlug, SealedTag};
use memory::ScratchpadMemory;

// The kinds of tag that there are, for a program that learns the kind when it runs.
#[derive(Clone, Copy, Debug, PartialEq, Eq)]
pub enum TagKind {
    Sealed,
    Plug,
}

// A tag of any of these kinds; a line of one chip.
#[derive(Drop)]
pub enum AnyTag {
    Sealed(OneTag<ScratchpadMemory<SealedTag>>),
    Plug(OneTag<ScratchpadMemory<PracticePlug>>),
}

impl TagKind {
    // How many bytes an image of this kind has.
    pub fn image_length(&self) -> usize
        ensures { result ≡ (rules_of self.now).image }
    {
        match self {
            TagKind::Sealed => SealedTag::IMAGE,
            TagKind::Plug => PracticePlug::IMAGE,
        }
    }
}

impl AnyTag {
    // A tag of a kind with its number and the bytes of an image, without power.
    // Refusal 2 where the image is not of the kind's length; no tag is then made.
    pub fn new(
        kind: TagKind,
        number: RegistrationNumber,
        image: &[u8],
    ) -> Result<AnyTag, ImageFault>
        ensures { given chip_of result ≡ placing (rules_of kind) number.word image.now None }
    {
        match kind {
            TagKind::Sealed => Ok(AnyTag::Sealed(tag_of(number, image)?)),
            TagKind::Plug => Ok(AnyTag::Plug(tag_of(number, image)?)),
        }
    }
}

impl Line for AnyTag {
    ghost chips = { λ t. chip_of t ∷ [] };

    fn reset(&mut self) {
        match self {
            AnyTag::Sealed(tag) => tag.reset(),
            AnyTag::Plug(tag) => tag.reset(),
        }
    }

    fn take(&mut self, bit: bool) {
        match self {
            AnyTag::Sealed(tag) => tag.take(bit),
            AnyTag::Plug(tag) => tag.take(bit),
        }
    }

    fn dwell(&mut self) {
        match self {
            AnyTag::Sealed(tag) => tag.dwell(),
            AnyTag::Plug(tag) => tag.dwell(),
        }
    }

    fn cut(&mut self, mask: u64) {
        match self {
            AnyTag::Sealed(tag) => tag.cut(mask),
            AnyTag::Plug(tag) => tag.cut(mask),
        }
    }

    fn power_up(&mut self) {
        match self {
            AnyTag::Sealed(tag) => tag.power_up(),
            AnyTag::Plug(tag) => tag.power_up(),
        }
    }

    fn presence(&self) -> bool {
        match self {
            AnyTag::Sealed(tag) => tag.presence(),
            AnyTag::Plug(tag) => tag.presence(),
        }
    }

    fn pull(&self) -> bool {
        match self {
            AnyTag::Sealed(tag) => tag.pull(),
            AnyTag::Plug(tag) => tag.pull(),
        }
    }

    fn is_busy(&self) -> bool {
        match self {
            AnyTag::Sealed(tag) => tag.is_busy(),
            AnyTag::Plug(tag) => tag.is_busy(),
        }
    }
}
