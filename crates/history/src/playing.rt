ghost use Rattle.std.specs.Prelude.{◌≡◌, min, ◌∷◌, map, length, take, drop};
ghost use Rattle.rig.specs.RigModel.{rig_of, counting};
ghost use Rattle.chip.specs.Histories.{MetAll};
ghost use Rattle.history.specs.Calls.{serve, serve_all, moments};
ghost use Rattle.history.specs.Edges.{EdgeRuns};
ghost use Rattle.history.specs.Identity.{KnownByBytes, EndsByBytes};
ghost use Rattle.history.specs.Laws.{numbers, NumbersStay, OnlyProgramming, StepsOnlyProgram, SilentUnpowered, PowerUpForgets, MetStays};
ghost use Rattle.history.specs.CallMeaning.{request_of, reply_of, form_of, form_asked, answer_count, call_count, tally, Unfilled, AllUnfilled};
ghost use Rattle.history.specs.Promises.{Always, VerdictTrue, VerdictsTrue, Promises};
ghost use Rattle.history.specs.declared.calls.Call.TheVariants.{Search, Read};

use crate::calls::{Answer, Call};
use base::RegistrationNumber;
use kinds::row::ROW;
use line::Line;
use order::job::order;
use reading::job::read_row;
use rig::Rig;
use rom_search::job::{MOST_PLACES, search_rom};

// A search with a list of its own: it fills at most `MOST_PLACES`, so no more are lent.
fn make_search<L: Line>(rig: &mut Rig<L>, places: usize) -> Answer
    ensures told { (rig_of L.chips rig.new, reply_of result) ≡ serve (request_of (Search places)) (rig_of L.chips rig.old) }
    ensures form { form_of result ≡ form_asked (Search places) }
    ensures counted { (counting L.chips rig.new).steps ≡ answer_count result (counting L.chips rig.old).steps }
    ensures rest { Unfilled result }
{
    let mut list = [0; MOST_PLACES];
    let lent = places.min(MOST_PLACES);
    let outcome = search_rom(rig, &mut list[..lent]);
    Answer::Listed {
        outcome,
        places: list,
    }
}

// A reading into a row of its own.
fn make_reading<L: Line>(rig: &mut Rig<L>, number: RegistrationNumber, row: u16) -> Answer
    ensures told { (rig_of L.chips rig.new, reply_of result) ≡ serve (request_of (Read number row)) (rig_of L.chips rig.old) }
    ensures form { form_of result ≡ form_asked (Read number row) }
    ensures counted { (counting L.chips rig.new).steps ≡ answer_count result (counting L.chips rig.old).steps }
{
    let mut found = [0; ROW];
    let outcome = read_row(rig, number, row, &mut found);
    Answer::Row(outcome.map(|steps| (found, steps)))
}

// One call, and its answer. A call is data, from letters or lists: one arm for each.
pub fn make_call<L: Line>(rig: &mut Rig<L>, call: Call) -> Answer
    ensures told { (rig_of L.chips rig.new, reply_of result) ≡ serve (request_of call) (rig_of L.chips rig.old) }
    ensures form { form_of result ≡ form_asked call }
    ensures counted { (counting L.chips rig.new).steps ≡ call_count call result (counting L.chips rig.old).steps }
    ensures rest { Unfilled result }
    ensures verdict { MetAll (rig_of L.chips rig.old).line → VerdictTrue (request_of call) (rig_of L.chips rig.old) }
{
    match call {
        Call::Reset => Answer::Presence(rig.reset().map_err(|fault| fault.refusal())),
        Call::Slot(bit) => Answer::Bit(rig.slot(bit).map_err(|fault| fault.refusal())),
        Call::Dwell => {
            rig.dwell();
            Answer::Done
        }
        Call::Cut(mask) => {
            rig.cut(mask);
            Answer::Done
        }
        Call::PowerUp => {
            rig.power_up();
            Answer::Done
        }
        Call::SetFuse(fuse) => {
            rig.set_fuse(fuse);
            Answer::Done
        }
        Call::Search { places } => make_search(rig, places),
        Call::Read { number, row } => make_reading(rig, number, row),
        Call::Order { number, row, new } => Answer::Judged(order(rig, number, row, &new)),
    }
}

// Plays a list of calls, as many as there are places for answers, and says how many; the places are lent, since nothing is allocated.
pub fn play<L: Line>(rig: &mut Rig<L>, calls: &[Call], answers: &mut [Answer]) -> usize
    ensures count { result ≡ min (length calls.now) (length answers.old) }
    ensures told { (rig_of L.chips rig.new, map reply_of (take result answers.new)) ≡ serve_all (map request_of (take result calls.now)) (rig_of L.chips rig.old) }
    ensures forms { map form_of (take result answers.new) ≡ map form_asked (take result calls.now) }
    ensures counted { (counting L.chips rig.new).steps ≡ tally (take result calls.now) (take result answers.new) (counting L.chips rig.old).steps }
    ensures rest { AllUnfilled (take result answers.new) }
    ensures later { drop result answers.new ≡ drop result answers.old }
    ensures here { numbers (rig_of L.chips rig.new) ≡ numbers (rig_of L.chips rig.old) }
    ensures numbers { NumbersStay }
    ensures programming { OnlyProgramming }
    ensures each { StepsOnlyProgram }
    ensures silent { SilentUnpowered }
    ensures forgets { PowerUpForgets }
    ensures met { MetStays }
    ensures protection { MetAll (rig_of L.chips rig.old).line → Always (rig_of L.chips rig.old ∷ moments (map request_of (take result calls.now)) (rig_of L.chips rig.old)) }
    ensures verdicts { MetAll (rig_of L.chips rig.old).line → VerdictsTrue (map request_of (take result calls.now)) (rig_of L.chips rig.old) }
    ensures ends { EndsByBytes (rig_of L.chips rig.old) (map request_of (take result calls.now)) (rig_of L.chips rig.new, map reply_of (take result answers.new)) }
    ensures known { KnownByBytes (rig_of L.chips rig.new) }
    ensures promises { Promises }
    ensures edges { EdgeRuns }
{
    let count = calls.len().min(answers.len());
    for (i, call) in calls[..count].iter().enumerate() {
        answers[i] = make_call(rig, *call);
    }
    count
}
