ghost use Rattle.std.specs.Prelude.{◌≡◌};
ghost use Rattle.rig.specs.RigModel.{counting};
ghost use Rattle.wire.specs.Exchanges.{Told};
ghost use Rattle.reading.specs.Readings.{probes_scratchpad, reads_memory, closes_by_reset};

use base::RegistrationNumber;
use kinds::row::ROW;
use line::Line;
use memory::MemoryCommand;
use rig::Rig;
use wire::bytes::{read_bytes, send_byte, send_bytes};
use wire::opening::{expect_presence, reset_and_match_rom};
use wire::{ExchangeError, ExchangeFault, Target};

// AAh and three bytes; three times FFh is garbled.
pub fn probe_scratchpad<L: Line>(
    rig: &mut Rig<L>,
    number: RegistrationNumber,
) -> Result<(), ExchangeFault>
    ensures { Told (probes_scratchpad number.word) (counting L.chips rig.old) (counting L.chips rig.new) result }
{
    reset_and_match_rom(rig, number, 1)?;
    send_byte(rig, MemoryCommand::ReadScratchpad.byte())?;
    let got = read_bytes::<L, 3>(rig)?;
    if got == [0xFF; 3] {
        return Err(ExchangeFault::found(rig, ExchangeError::Garbled, 1));
    }
    Ok(())
}

// F0h with the row's address, and its bytes.
pub fn read_memory<L: Line>(
    rig: &mut Rig<L>,
    target: Target,
    exchange: u8,
) -> Result<[u8; ROW], ExchangeFault>
    ensures { Told (reads_memory exchange target.number.word target.row) (counting L.chips rig.old) (counting L.chips rig.new) result }
{
    reset_and_match_rom(rig, target.number, exchange)?;
    send_bytes(rig, &target.addressed(MemoryCommand::ReadMemory))?;
    let found = read_bytes::<L, ROW>(rig)?;
    Ok(found)
}

// The closing reset.
pub fn closing_reset<L: Line>(rig: &mut Rig<L>, exchange: u8) -> Result<(), ExchangeFault>
    ensures { Told (closes_by_reset exchange) (counting L.chips rig.old) (counting L.chips rig.new) result }
{
    expect_presence(rig, exchange)
}
