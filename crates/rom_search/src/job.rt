ghost use Rattle.std.specs.Prelude.{◌≡◌, ◌≤◌, ◌↔◌, map, length, IsErrOf};
ghost use Rattle.chip.specs.ChipStates.{bytes_of};
ghost use Rattle.rig.specs.RigModel.{counting, rig_of};
ghost use Rattle.rom_search.specs.Searches.{search_call, most_places, room_of};
ghost use Rattle.rom_search.specs.Laws.{SearchComplete, BusyUnchanged, SearchSteps, AbsentSteps, SearchBound};
ghost use Rattle.rom_search.specs.SearchOutcomes.{Searched, search_answer, search_count, Later};

use crate::pass::make_pass;
use crate::search_fault::SearchFault;
use line::Line;
use rig::Rig;
use wire::opening::begin_job;

// At most so many numbers are found.
pub const MOST_PLACES: usize = 64;

// Passes until none is open or the room is used up; each pass fills one place.
// The room beside all places: the clause tells that those behind it stay.
fn list_numbers<L: Line>(
    rig: &mut Rig<L>,
    places: &mut [u64],
    room: u8,
) -> Result<(u8, u32), SearchFault>
    requires { (room ≤ length places.old) × (room ≤ most_places) }
    ensures { Searched room (counting L.chips rig.old) (counting L.chips rig.new) places.old places.new result }
{
    let mut path = 0;
    for i in 0..room {
        let pass = make_pass(rig, path, i + 1)?;
        places[i as usize] = pass.number;
        let Some(next) = pass.next else {
            return Ok((i + 1, rig.steps()));
        };
        path = next;
    }
    Err(SearchFault::Full {
        passes: room,
        steps: rig.steps(),
    })
}

// Lists the numbers of the powered chips, at most `MOST_PLACES`, in the lent places, since nothing is allocated; answers their count and the steps made.
pub fn search_rom<L: Line>(rig: &mut Rig<L>, places: &mut [u64]) -> Result<(u8, u32), SearchFault>
    ensures told { (rig_of L.chips rig.new, search_answer result places.new) ≡ search_call (length places.old) (rig_of L.chips rig.old) }
    ensures counted { (counting L.chips rig.new).steps ≡ search_count (counting L.chips rig.old).steps result }
    ensures later { Later result places.old places.new }
    ensures bytes { map bytes_of (L.chips rig.new.line) ≡ map bytes_of (L.chips rig.old.line) }
    ensures complete { SearchComplete }
    ensures unchanged { BusyUnchanged }
    ensures no_place { IsErrOf result SearchFault.NoPlace ↔ (length places.old ≡ 0) }
    ensures steps { SearchSteps }
    ensures absent { AbsentSteps }
    ensures bound { SearchBound }
{
    if places.len() == 0 {
        return Err(SearchFault::NoPlace);
    }
    begin_job(rig)?;
    let room = room_of(places.len());
    list_numbers(rig, places, room)
}

// At most `MOST_PLACES` places are used.
fn room_of(count: usize) -> u8
    ensures { result ≡ room_of count }
{
    count.min(MOST_PLACES) as u8
}
