ghost use Rattle.std.specs.Prelude.{◌≡◌, [], ◌∷◌};
ghost use Rattle.rig.specs.RigModel.{counting};
ghost use Rattle.wire.specs.Outcomes.{does, sends, reads, reads_byte};

use base::shift_in::ShiftIn;
use line::Line;
use rig::{Rig, RigFault};

pub fn send_byte<L: Line>(rig: &mut Rig<L>, byte: u8) -> Result<(), RigFault>
    ensures { (counting L.chips rig.new, result) ≡ does (sends (byte ∷ [])) (counting L.chips rig.old) }
{
    let mut rest = byte;
    for _ in 0..u8::BITS {
        rig.slot(rest % 2 == 1)?;
        rest /= 2;
    }
    Ok(())
}

pub fn send_bytes<L: Line>(rig: &mut Rig<L>, bytes: &[u8]) -> Result<(), RigFault>
    ensures { (counting L.chips rig.new, result) ≡ does (sends bytes.now) (counting L.chips rig.old) }
{
    for byte in bytes {
        send_byte(rig, *byte)?;
    }
    Ok(())
}

pub fn read_byte<L: Line>(rig: &mut Rig<L>) -> Result<u8, RigFault>
    ensures { (counting L.chips rig.new, result) ≡ does reads_byte (counting L.chips rig.old) }
{
    let mut got = 0u8;
    for _ in 0..u8::BITS {
        let bit = rig.slot(true)?;
        got = got.shift_in(bit);
    }
    Ok(got)
}

pub fn read_bytes<L: Line, const N: usize>(rig: &mut Rig<L>) -> Result<[u8; N], RigFault>
    ensures { (counting L.chips rig.new, result) ≡ does (reads N) (counting L.chips rig.old) }
{
    let mut bytes = [0; N];
    for byte in &mut bytes {
        *byte = read_byte(rig)?;
    }
    Ok(bytes)
}
