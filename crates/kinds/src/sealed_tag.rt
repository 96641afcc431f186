ghost use Rattle.std.specs.Prelude.{◌≡◌};
ghost use Rattle.kinds.specs.SealedTag.{sealed, made, locked, control};
ghost use Rattle.kinds.specs.Locks.{Says};
ghost use Rattle.kinds.specs.SealedTagLaws.{sealed_figures, sealed_lawful, made_length, bytes_made};

use crate::image::Image;
use crate::image_fault::ImageFault;
use crate::kind::Kind;
use crate::row::ROW;

// Where the registers begin, and those that lock others.
const REGISTERS: u16 = 0x80;

const COPY_LOCK: u16 = 0x84;

const FACTORY: u16 = 0x85;

// The two bytes that FACTORY locks.
const ID_LOW: u16 = 0x86;

const ID_HIGH: u16 = 0x87;

// What a control byte says of its page, and a register of what it locks.
#[derive(Clone, Copy, Debug, PartialEq, Eq)]
enum Lock {
    Open,
    WriteProtected,
    EpromMode,
}

impl From<u8> for Lock {
    ghost from_gives = { Says };

    fn from(byte: u8) -> Lock {
        match byte {
            0x55 => Lock::WriteProtected,
            0xaa => Lock::EpromMode,
            _ => Lock::Open,
        }
    }
}

#[derive(Drop)]
pub struct SealedTag {
    image: Image<136>,
}

// A value that locks a register.
fn locks(byte: u8) -> bool
    ensures { result ≡ locked byte }
{
    let lock = Lock::from(byte);
    lock == Lock::WriteProtected || lock == Lock::EpromMode
}

impl SealedTag {
    // What the control byte of an address's page says.
    fn control(&self, address: u16) -> Lock
        ensures { Says (control (made self.now.image.bytes) address) result }
    {
        Lock::from(self.read(REGISTERS + address / 32))
    }
}

impl Kind for SealedTag {
    const N: usize = 144;

    const W: usize = 136;

    const IMAGE: usize = 136;

    ghost N = { 144 };

    ghost W = { 136 };

    ghost IMAGE = { 136 };

    ghost rules = { sealed };

    ghost bytes = { λ t. made t.image.bytes };

    ghost figures = { sealed_figures };

    ghost lawful = { sealed_lawful };

    ghost whole = { λ k. made_length k.image.bytes k.image.whole };

    ghost small = { λ k. bytes_made k.image.bytes k.image.small };

    fn from_image(image: &[u8]) -> Result<SealedTag, ImageFault> {
        Ok(SealedTag {
            image: Image::try_from(image)?,
        })
    }

    fn read(&self, address: u16) -> u8 {
        self.image.read(address)
    }

    fn load(&self, address: u16, sent: u8) -> u8 {
        let held = self.read(address);
        match address {
            0..REGISTERS => match self.control(address) {
                Lock::WriteProtected => held,
                Lock::EpromMode => sent & held,
                Lock::Open => sent,
            },
            REGISTERS..=COPY_LOCK if locks(held) => held,
            FACTORY => held,
            ID_LOW..=ID_HIGH if Lock::from(self.read(FACTORY)) == Lock::EpromMode => held,
            _ => sent,
        }
    }

    fn may_copy(&self, row: u16) -> bool {
        if (row as usize) >= Self::W {
            return false;
        }
        if !locks(self.read(COPY_LOCK)) {
            return true;
        }
        row != REGISTERS && !(row < REGISTERS && self.control(row) == Lock::WriteProtected)
    }

    fn program(&mut self, row: u16, new: &[u8; ROW], mask: u64) {
        self.image.program(row, new, mask);
    }
}
