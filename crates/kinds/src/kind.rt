ghost use Rattle.std.specs.Prelude.{◌≡◌, ℕ, List, length};
ghost use Rattle.kinds.specs.Kinds.{Rules, Figures, Lawful, Bytes, at, may_copy, program, making};
ghost use Rattle.kinds.specs.ImageMaking.{made_of};

use crate::image_fault::ImageFault;
use crate::row::ROW;

// A kind of tag. Its meaning is its N bytes, and rules that depend on those bytes alone.
pub trait Kind: Sized {
    // Readable bytes, programmable bytes, and the length of an image.
    const N: usize;

    const W: usize;

    const IMAGE: usize;

    ghost N: { ℕ };

    ghost W: { ℕ };

    ghost IMAGE: { ℕ };

    ghost rules: { Rules };

    ghost bytes: { Self → List ℕ };

    // Refusal 2 where the image has another length.
    fn from_image(image: &[u8]) -> Result<Self, ImageFault>
        ensures { made_of bytes result ≡ making rules image.now };

    // The byte at an address, FFh at N and above.
    fn read(&self, address: u16) -> u8
        ensures { result ≡ at (bytes self.now) address };

    // The byte that the scratchpad gets for a sent one.
    fn load(&self, address: u16, sent: u8) -> u8
        ensures { result ≡ rules.load (bytes self.now) address sent };

    // Whether a row may be copied to.
    fn may_copy(&self, row: u16) -> bool
        ensures { result ≡ may_copy rules (bytes self.now) row };

    // Programs a row through a mask: the new bit where the mask has a one, the old bit elsewhere.
    fn program(&mut self, row: u16, new: &[u8; ROW], mask: u64)
        ensures { bytes self.new ≡ program rules.w row new.now mask (bytes self.old) };

    ghost figures: { Figures rules N W IMAGE };

    ghost lawful: { Lawful rules };

    ghost whole: { (k : Self) → length (bytes k) ≡ rules.n };

    ghost small: { (k : Self) → Bytes (bytes k) };
}
