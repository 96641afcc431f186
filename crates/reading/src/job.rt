ghost use Rattle.std.specs.Prelude.{◌≡◌, ◌%◌, true, false, map, is_err};
ghost use Rattle.kinds.specs.Kinds.{row_length};
ghost use Rattle.chip.specs.Histories.{MetAll};
ghost use Rattle.chip.specs.ChipStates.{bytes_of};
ghost use Rattle.line.specs.Lines.{any_busy};
ghost use Rattle.rig.specs.RigModel.{counting, rig_of};
ghost use Rattle.wire.specs.Laws.{Single};
ghost use Rattle.wire.specs.Selection.{LineLaws};
ghost use Rattle.reading.specs.Readings.{read_call};
ghost use Rattle.reading.specs.Laws.{Tells, ReadingTells, RowIsRead, BusyUnchanged, LeavesFree, ReadingSteps};
ghost use Rattle.reading.specs.ReadOutcomes.{Read, read_report, read_count};

use crate::exchanges::{closing_reset, probe_scratchpad, read_memory};
use crate::read_fault::ReadFault;
use base::RegistrationNumber;
use kinds::row::ROW;
use line::Line;
use rig::Rig;
use wire::Target;
use wire::opening::begin_job;

fn read_steps<L: Line>(rig: &mut Rig<L>, target: Target) -> Result<([u8; ROW], u32), ReadFault>
    ensures { Read target.number.word target.row (counting L.chips rig.old) (counting L.chips rig.new) result }
{
    probe_scratchpad(rig, target.number)?;
    let found = read_memory(rig, target, 2)?;
    closing_reset(rig, 3)?;
    Ok((found, rig.steps()))
}

// Reads a row into the caller's, which stays as it is unless the reading succeeds; answers the steps made.
// Number and row apart, as a master asks them; a target inside.
pub fn read_row<L: Line>(
    rig: &mut Rig<L>,
    number: RegistrationNumber,
    row: u16,
    into: &mut [u8; ROW],
) -> Result<u32, ReadFault>
    ensures told { (rig_of L.chips rig.new, read_report result into.new) ≡ read_call number.word row (rig_of L.chips rig.old) }
    ensures counted { (counting L.chips rig.new).steps ≡ read_count (counting L.chips rig.old).steps result }
    ensures kept { is_err result ≡ true → into.new ≡ into.old }
    ensures bytes { map bytes_of (L.chips rig.new.line) ≡ map bytes_of (L.chips rig.old.line) }
    ensures here { MetAll (L.chips rig.old.line) → row % row_length ≡ 0 → any_busy (L.chips rig.old.line) ≡ false → (one : Single number.word (L.chips rig.old.line)) → Tells number.word row (rig_of L.chips rig.old) one }
    ensures tells { ReadingTells }
    ensures found { RowIsRead }
    ensures unchanged { BusyUnchanged }
    ensures free { LeavesFree }
    ensures steps { ReadingSteps }
    ensures lines { LineLaws }
{
    if row % 8 != 0 {
        return Err(ReadFault::BadRow);
    }
    begin_job(rig)?;
    let (found, steps) = read_steps(rig, Target { number, row })?;
    *into = found;
    Ok(steps)
}
