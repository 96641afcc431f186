ghost use Rattle.std.specs.Prelude.{◌≡◌};
ghost use Rattle.kinds.specs.Kinds.{at, program, imaging};
ghost use Rattle.kinds.specs.ImageMaking.{image_of};

use crate::image::Image;
use crate::image_fault::ImageFault;
use crate::row::{ROW, blend};

// Refusal 2 where there are not W bytes.
impl<const W: usize> TryFrom<&[u8]> for Image<W> {
    type Error = ImageFault;

    ghost try_from_gives = { λ bytes image. image_of image ≡ imaging W bytes.now };

    fn try_from(bytes: &[u8]) -> Result<Image<W>, ImageFault> {
        // The library's own error says nothing more than this one.
        match <[u8; W]>::try_from(bytes) {
            Ok(bytes) => Ok(Image { bytes }),
            Err(_) => Err(ImageFault::WrongLength),
        }
    }
}

impl<const W: usize> Image<W> {
    // The byte at an address, FFh at W and above.
    pub fn read(&self, address: u16) -> u8
        ensures { result ≡ at self.now.bytes address }
    {
        let i = address as usize;
        if i < W { self.bytes[i] } else { 0xff }
    }

    // Programs a row through a mask.
    pub fn program(&mut self, row: u16, new: &[u8; ROW], mask: u64)
        ensures { self.new.bytes ≡ program W row new.now mask self.old.bytes }
    {
        let first = row as usize;
        for i in 0..ROW {
            let at = first + i;
            if at < W {
                let part = ((mask >> (8 * i as u32)) & 0xff) as u8;
                self.bytes[at] = blend(part, new[i], self.bytes[at]);
            }
        }
    }
}
