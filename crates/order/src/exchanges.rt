ghost use Rattle.std.specs.Prelude.{◌≡◌};
ghost use Rattle.rig.specs.RigModel.{counting};
ghost use Rattle.wire.specs.Exchanges.{Told};
ghost use Rattle.order.specs.Differences.{first_difference};
ghost use Rattle.order.specs.Writings.{Expected, writes_scratchpad, verifies_scratchpad, copies_scratchpad};

use base::crc::{crc16_after, inverted};
use kinds::row::ROW;
use line::Line;
use memory::MemoryCommand;
use rig::Rig;
use wire::bytes::{read_bytes, send_byte, send_bytes};
use wire::opening::reset_and_match_rom;
use wire::{ExchangeError, ExchangeFault, Target};

// The status of a scratchpad that took a whole row.
const WHOLE: u8 = 0x07;

// What a tag says once it has programmed.
const PROGRAMMED: u8 = 0xAA;

// Bytes that must be these; others are garbled.
fn expect<L: Line>(
    rig: &Rig<L>,
    got: &[u8],
    right: &[u8],
    exchange: u8,
) -> Result<(), ExchangeFault>
    ensures { Expected (first_difference got.now right.now) exchange (counting L.chips rig.now).steps result }
{
    if got == right {
        Ok(())
    } else {
        Err(ExchangeFault::found(rig, ExchangeError::Garbled, exchange))
    }
}

// 0Fh, the address and the data; the sum that is read must be right.
pub fn write_scratchpad<L: Line>(
    rig: &mut Rig<L>,
    target: Target,
    new: &[u8; ROW],
) -> Result<(), ExchangeFault>
    ensures { Told (writes_scratchpad target.number.word target.row new.now) (counting L.chips rig.old) (counting L.chips rig.new) result }
{
    let head = target.addressed(MemoryCommand::WriteScratchpad);
    reset_and_match_rom(rig, target.number, 1)?;
    send_bytes(rig, &head)?;
    send_bytes(rig, new)?;
    let sum = read_bytes::<L, 2>(rig)?;
    let right = inverted(crc16_after(crc16_after(0, &head), new));
    expect(rig, &sum, &right, 1)?;
    Ok(())
}

// AAh; address, status and sum must be right. The scratchpad's bytes.
pub fn verify_scratchpad<L: Line>(
    rig: &mut Rig<L>,
    target: Target,
) -> Result<[u8; ROW], ExchangeFault>
    ensures { Told (verifies_scratchpad target.number.word target.row) (counting L.chips rig.old) (counting L.chips rig.new) result }
{
    let [low, high] = target.address();
    reset_and_match_rom(rig, target.number, 2)?;
    send_byte(rig, MemoryCommand::ReadScratchpad.byte())?;
    let got = read_bytes::<L, 13>(rig)?;
    expect(rig, &got[0..3], &[low, high, WHOLE], 2)?;
    let right = inverted(crc16_after(
        crc16_after(0, &[MemoryCommand::ReadScratchpad.byte()]),
        &got[0..11],
    ));
    expect(rig, &got[11..13], &right, 2)?;
    let mut loaded = [0; ROW];
    loaded.copy_from_slice(&got[3..11]);
    Ok(loaded)
}

// 55h with address and status, dwell, and the byte that says whether the tag has programmed.
pub fn copy_scratchpad<L: Line>(rig: &mut Rig<L>, target: Target) -> Result<bool, ExchangeFault>
    ensures { Told (copies_scratchpad target.number.word target.row) (counting L.chips rig.old) (counting L.chips rig.new) result }
{
    let [low, high] = target.address();
    reset_and_match_rom(rig, target.number, 3)?;
    send_bytes(
        rig,
        &[MemoryCommand::CopyScratchpad.byte(), low, high, WHOLE],
    )?;
    rig.dwell();
    let [said] = read_bytes::<L, 1>(rig)?;
    Ok(said == PROGRAMMED)
}
