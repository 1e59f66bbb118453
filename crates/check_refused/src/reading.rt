// The paths of a file system, as far as its directories are given.
ghost use Rattle.std.specs.Prelude.{◌<◌, ◌≤◌, T, length, map, IfOk, OnOk};
ghost use Rattle.std.specs.FinMap.{is_sorted};
ghost use Rattle.check_walk.specs.store_api.Content.{id_cmp};
ghost use Rattle.check_refused.specs.Surveys.{Surveys};
ghost use Rattle.check_walk.specs.Marks.{unmarked};
ghost use Rattle.cryfs_check.specs.Places.{AreBehind, places_text};

use crate::survey::{Ungiven, is_among};
use block_id::{BlockId, Fail, Memory};
use check_walk::store_api::Blocks;
use check_walk::{Halt, Marks};
use cryfs_check::{Place, Visit, place_entries, visit, visit_at};
use fs_model::Kind;
use std::alloc::Global;

/// The paths from the root on. What stands below a directory that isn't given, or isn't one, isn't among them.
pub(crate) fn read_places<B: Blocks>(
    alloc: Global,
    store: &mut B,
    live: &[BlockId],
    root: &BlockId,
    ungiven: &[Ungiven],
) -> Result<Vec<Place>, Memory>
    requires intact { B.meanings.intact store.old }
    requires order { T (is_sorted id_cmp (map unmarked live.now)) }
    ensures surveys { Surveys B.meanings B.holdings store.old store.new }
    ensures behind { IfOk result (λ places. AreBehind (places_text places.items)) }
{
    let mut marks = Marks::new(alloc, live)?;
    let mut places = Vec::new(alloc);
    for number in 0..4294967295 {
        let what = match visit_at(&places, root, number) {
            Some(what) => what,
            None => return Ok(places),
        };
        enter(
            alloc,
            store,
            &mut marks,
            &mut places,
            number,
            &what,
            ungiven,
        )?;
    }
    Err(Memory)
}

/// Puts the entries of a directory behind the places, where it is given and is one. It isn't asked for where its root is known not
/// to be given.
fn enter<B: Blocks>(
    alloc: Global,
    store: &mut B,
    marks: &mut Marks,
    places: &mut Vec<Place>,
    number: u32,
    what: &Visit,
    ungiven: &[Ungiven],
) -> Result<(), Memory>
    requires intact { B.meanings.intact store.old }
    requires small { number < 4294967295 }
    requires within { number ≤ length places.old.items }
    requires behind { AreBehind (places_text places.old.items) }
    ensures surveys { Surveys B.meanings B.holdings store.old store.new }
    ensures behind { OnOk result (AreBehind (places_text places.new.items)) }
{
    if is_among(ungiven, &what.id) {
        return Ok(());
    }
    match what.kind {
        Kind::Directory => {}
        Kind::File | Kind::Link => return Ok(()),
    }
    let entries = match visit(alloc, store, marks, number + 1, what) {
        Ok(entries) => entries,
        Err(Halt::Failing(Fail::Memory)) => return Err(Memory),
        Err(Halt::Failing(Fail::Fault | Fail::Violation(_)) | Halt::Found(_)) => return Ok(()),
    };
    place_entries(places, number, entries)
}
