ghost use Rattle.std.specs.Prelude.{◌≡◌, OnErr, None};
ghost use Rattle.memory.specs.Memories.{padded};
ghost use Rattle.memory.specs.ScratchpadModel.{model};
ghost use Rattle.line.specs.TagMaking.{placing, place_of, answer_of, chip_in, given, MadeMet};

use crate::one_tag::OneTag;
use base::RegistrationNumber;
use kinds::{ImageFault, Kind};
use memory::ScratchpadMemory;

// A tag with its number and the bytes of an image, without power, in a lent place.
// Refusal 2 where the image is not of the kind's length; the place is then unchanged.
#[tactic(auto, using(crate::proofs::Fresh::made_met))]
pub fn make_tag<K: Kind + Drop>(
    place: &mut Option<OneTag<ScratchpadMemory<K>>>,
    number: RegistrationNumber,
    image: &[u8],
) -> Result<(), ImageFault>
    ensures told { (place_of (λ p. padded (model K.rules K.bytes p)) place.new, answer_of result) ≡ placing K.rules number.word image.now (place_of (λ p. padded (model K.rules K.bytes p)) place.old) }
    ensures kept { OnErr result (place.new ≡ place.old) }
    ensures met { MadeMet }
{
    *place = Some(tag_of(number, image)?);
    Ok(())
}

// A tag with its number and the bytes of an image, without power.
// Refusal 2 where the image is not of the kind's length; no tag is then made.
pub fn tag_of<K: Kind>(
    number: RegistrationNumber,
    image: &[u8],
) -> Result<OneTag<ScratchpadMemory<K>>, ImageFault>
    ensures { given (chip_in (λ p. padded (model K.rules K.bytes p))) result ≡ placing K.rules number.word image.now None }
{
    let kind = K::from_image(image)?;
    Ok(OneTag::new(number, ScratchpadMemory::new(kind)))
}
