ghost use Rattle.std.specs.Prelude.{◌≡◌, ◌↔◌, IsOk, IfOk, IfErr, EachIndex, length, slice_index};
ghost use Rattle.memory.specs.Memories.{padded};
ghost use Rattle.chip.specs.ChipModel.{model as chip_of};
ghost use Rattle.memory.specs.ScratchpadModel.{model};
ghost use Rattle.line.specs.TagMaking.{made_tag};

use crate::fault::SampleFault;
use base::RegistrationNumber;
use kinds::Kind;
use line::{OneTag, tag_making};
use memory::ScratchpadMemory;
use std::array;

// A tag with the scratchpad protocol, which is a line of one chip.
pub type Tag<K> = OneTag<ScratchpadMemory<K>>;

// A tag of any kind from its number and its image, without power.
pub fn tag_of<K: Kind + Drop>(
    number: RegistrationNumber,
    image: &[u8],
) -> Result<Tag<K>, SampleFault>
    ensures made { IfOk result (λ t. chip_of (λ p. padded (model K.rules K.bytes p)) t.chip ≡ made_tag K.rules number.word image.now) }
    ensures ok { IsOk result ↔ (length image.now ≡ K.rules.image) }
    ensures err { IfErr result (λ e. e ≡ SampleFault.NoTag) }
{
    Ok(tag_making::tag_of(number, image)?)
}

// An image of a sealed tag in which each byte is its own address.
pub fn own_addresses() -> [u8; 136]
    ensures { EachIndex result (λ k. slice_index result k ≡ k) }
{
    // The remainder shows that an index is a byte.
    array::from_fn(|i| (i % 256) as u8)
}
