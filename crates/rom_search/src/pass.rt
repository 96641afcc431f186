ghost use Rattle.std.specs.Prelude.{◌≡◌};
ghost use Rattle.rig.specs.RigModel.{counting};
ghost use Rattle.rom_search.specs.Passes.{pass_told};

use crate::triplets::{Pass, follow_path};
use chip::RomCommand;
use line::Line;
use rig::Rig;
use wire::bytes::send_byte;
use wire::opening::expect_presence;
use wire::{ExchangeError, ExchangeFault};

// One pass along a path: reset with presence, F0h and 64 triples. Its number is that of an exchange, which a fault carries.
pub fn make_pass<L: Line>(rig: &mut Rig<L>, path: u64, exchange: u8) -> Result<Pass, ExchangeFault>
    ensures { (counting L.chips rig.new, result) ≡ pass_told path exchange (counting L.chips rig.old) }
{
    expect_presence(rig, exchange)?;
    send_byte(rig, RomCommand::SearchRom.byte())?;
    let Some(pass) = follow_path(rig, path)? else {
        return Err(ExchangeFault::found(rig, ExchangeError::Garbled, exchange));
    };
    Ok(pass)
}
