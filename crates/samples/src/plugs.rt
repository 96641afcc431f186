ghost use Rattle.std.specs.Prelude.{◌≡◌, map, IsOkAnd};
ghost use Rattle.std.specs.List.{range_with_len};
ghost use Rattle.base.specs.RegistrationNumbers.{IsChecked};
ghost use Rattle.samples.specs.Plugs.{plug_word, plug_chip, chip_of};

use crate::fault::SampleFault;
use crate::tags::{Tag, tag_of};
use base::RegistrationNumber;
use base::crc::crc8;
use kinds::PracticePlug;
use line::LineArray;
use std::array;

pub type Plug = Tag<PracticePlug>;

// One plug more than a search lists.
pub const MANY: usize = 65;

// The family code of these plugs.
pub const FAMILY: u8 = 0x2D;

fn word_of(serial: u8) -> u64
    ensures value { result ≡ plug_word serial }
    ensures lawful { IsChecked result }
{
    let sum = crc8(&[FAMILY, serial, 0, 0, 0, 0, 0]);
    u64::from_le_bytes([FAMILY, serial, 0, 0, 0, 0, 0, sum])
}

fn number_with(serial: u8) -> RegistrationNumber
    ensures { result.word ≡ plug_word serial }
{
    RegistrationNumber::try_from(word_of(serial)).unwrap()
}

// The plug with a serial number, without power; its bytes are all 00h.
pub fn plug(serial: u8) -> Result<Plug, SampleFault>
    ensures { IsOkAnd result (λ t. chip_of t ≡ plug_chip serial) }
{
    tag_of(number_with(serial), &[0; 64])
}

// Plugs with consecutive serial numbers from 0 on.
pub fn many_plugs() -> Result<LineArray<Plug, MANY>, SampleFault>
    ensures { IsOkAnd result (λ m. map chip_of m.lines ≡ map plug_chip (range_with_len 0 65)) }
{
    // The remainder shows that an index is a byte.
    let plugs = array::try_from_fn(|i| plug((i % 256) as u8))?;
    Ok(LineArray::new(plugs))
}
