ghost use Rattle.kinds.specs.PracticePlugLaws.{plug_figures, plug_lawful};
ghost use Rattle.kinds.specs.PracticePlug.{plug};

use crate::image::Image;
use crate::image_fault::ImageFault;
use crate::kind::Kind;
use crate::row::ROW;

// A tag to practise with: 64 bytes, none of them ever protected.
#[derive(Drop)]
pub struct PracticePlug {
    image: Image<64>,
}

impl Kind for PracticePlug {
    const N: usize = 64;

    const W: usize = 64;

    const IMAGE: usize = 64;

    ghost N = { 64 };

    ghost W = { 64 };

    ghost IMAGE = { 64 };

    ghost rules = { plug };

    ghost bytes = { λ p. p.image.bytes };

    ghost figures = { plug_figures };

    ghost lawful = { plug_lawful };

    ghost whole = { λ p. p.image.whole };

    ghost small = { λ p. p.image.small };

    fn from_image(image: &[u8]) -> Result<PracticePlug, ImageFault> {
        Ok(PracticePlug {
            image: Image::try_from(image)?,
        })
    }

    fn read(&self, address: u16) -> u8 {
        self.image.read(address)
    }

    fn load(&self, _address: u16, sent: u8) -> u8 {
        sent
    }

    fn may_copy(&self, row: u16) -> bool {
        (row as usize) < Self::W
    }

    fn program(&mut self, row: u16, new: &[u8; ROW], mask: u64) {
        self.image.program(row, new, mask);
    }
}
