ghost use Rattle.std.specs.Prelude.{◌≡◌};
ghost use Rattle.chip.specs.Histories.{MetAll};
ghost use Rattle.rig.specs.RigModel.{counting, rig_of};
ghost use Rattle.wire.specs.Laws.{Single};
ghost use Rattle.order.specs.Differences.{first_difference};
ghost use Rattle.order.specs.Orders.{order_call};
ghost use Rattle.order.specs.Laws.{OrderBegan, Tells, OrderTells, BusyUnchanged, LeavesFree, BeganLeavesFree, OnlyTheRow, Uncopied, OrderSteps};
ghost use Rattle.order.specs.OrderOutcomes.{judgement, Concluded, Ordered, order_verdict, order_count};

use crate::differences::first_difference;
use crate::exchanges::{copy_scratchpad, verify_scratchpad, write_scratchpad};
use crate::order_fault::OrderFault;
use base::RegistrationNumber;
use kinds::row::ROW;
use line::Line;
use reading::exchanges::{closing_reset, read_memory};
use rig::Rig;
use wire::Target;
use wire::opening::begin_job;

// Exchanges 3 to 5, once the scratchpad holds what was ordered.
fn conclude<L: Line>(
    rig: &mut Rig<L>,
    target: Target,
    new: &[u8; ROW],
) -> Result<(bool, u32), OrderFault>
    ensures { Concluded target.number.word target.row new.now (counting L.chips rig.old) (counting L.chips rig.new) result }
{
    let programmed = copy_scratchpad(rig, target)?;
    let found = read_memory(rig, target, 4)?;
    closing_reset(rig, 5)?;
    judge(programmed, new, &found, rig.steps())
}

// Held, if the row that was found is the ordered one.
fn judge(
    programmed: bool,
    new: &[u8; ROW],
    found: &[u8; ROW],
    steps: u32,
) -> Result<(bool, u32), OrderFault>
    ensures { result ≡ judgement programmed (first_difference new.now found.now) steps }
{
    match first_difference(new, found) {
        None => Ok((programmed, steps)),
        Some(index) => Err(OrderFault::NotHeld { index, steps }),
    }
}

fn order_steps<L: Line>(
    rig: &mut Rig<L>,
    target: Target,
    new: &[u8; ROW],
) -> Result<(bool, u32), OrderFault>
    ensures { Ordered target.number.word target.row new.now (counting L.chips rig.old) (counting L.chips rig.new) result }
{
    write_scratchpad(rig, target, new)?;
    let loaded = verify_scratchpad(rig, target)?;
    if let Some(index) = first_difference(new, &loaded) {
        return Err(OrderFault::Differs {
            index,
            steps: rig.steps(),
        });
    }
    conclude(rig, target, new)
}

// Orders eight bytes to a row. Held: whether the tag has programmed, and the steps made; a pair, as its rule says.
// Number and row apart, as a master asks them; a target inside.
pub fn order<L: Line>(
    rig: &mut Rig<L>,
    number: RegistrationNumber,
    row: u16,
    new: &[u8; ROW],
) -> Result<(bool, u32), OrderFault>
    ensures told { (rig_of L.chips rig.new, order_verdict result) ≡ order_call number.word row new.now (rig_of L.chips rig.old) }
    ensures counted { (counting L.chips rig.new).steps ≡ order_count (counting L.chips rig.old).steps result }
    ensures here { MetAll (L.chips rig.old.line) → OrderBegan (order_verdict result) → Single number.word (L.chips rig.old.line) → Tells number.word row new.now (rig_of L.chips rig.old) }
    ensures tells { OrderTells }
    ensures unchanged { BusyUnchanged }
    ensures free { LeavesFree }
    ensures began { BeganLeavesFree }
    ensures only { OnlyTheRow }
    ensures uncopied { Uncopied }
    ensures steps { OrderSteps }
{
    if row % 8 != 0 {
        return Err(OrderFault::BadRow);
    }
    begin_job(rig)?;
    order_steps(rig, Target { number, row }, new)
}
