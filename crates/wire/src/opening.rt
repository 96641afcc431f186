ghost use Rattle.std.specs.Prelude.{◌≡◌};
ghost use Rattle.rig.specs.RigModel.{counting};
ghost use Rattle.wire.specs.Exchanges.{JobBegins, resets_and_matches, present};

use crate::bytes::{send_byte, send_bytes};
use crate::exchange_fault::{ExchangeError, ExchangeFault};
use base::RegistrationNumber;
use chip::RomCommand;
use line::Line;
use rig::Rig;

// A job begins, its steps counted from 0; refusal 3 while the line is busy, with all unchanged.
pub fn begin_job<L: Line>(rig: &mut Rig<L>) -> Result<(), ExchangeFault>
    ensures { JobBegins (counting L.chips rig.old) (counting L.chips rig.new) result }
{
    Ok(rig.begin_job()?)
}

// A reset that must find a chip.
pub fn expect_presence<L: Line>(rig: &mut Rig<L>, exchange: u8) -> Result<(), ExchangeFault>
    ensures { (counting L.chips rig.new, result) ≡ present exchange (counting L.chips rig.old) }
{
    if rig.reset()? {
        Ok(())
    } else {
        Err(ExchangeFault::found(rig, ExchangeError::NoPresence, exchange))
    }
}

// Reset with presence, 55h and the number.
pub fn reset_and_match_rom<L: Line>(
    rig: &mut Rig<L>,
    number: RegistrationNumber,
    exchange: u8,
) -> Result<(), ExchangeFault>
    ensures { (counting L.chips rig.new, result) ≡ resets_and_matches number.word exchange (counting L.chips rig.old) }
{
    expect_presence(rig, exchange)?;
    send_byte(rig, RomCommand::MatchRom.byte())?;
    send_bytes(rig, &number.bytes())?;
    Ok(())
}
