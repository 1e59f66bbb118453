// The paths of blocks that aren't given.
ghost use Rattle.std.specs.Prelude.{◌≡◌, T, map};
ghost use Rattle.std.specs.FinMap.{is_sorted};
ghost use Rattle.check_walk.specs.store_api.Content.{id_cmp};
ghost use Rattle.check_refused.specs.Surveys.{Surveys, ungiven_of};
ghost use Rattle.check_walk.specs.Marks.{unmarked};
ghost use Rattle.cryfs_check.specs.Places.{AreBehind, places_text};

use crate::reading::read_places;
use crate::{Ungiven, explore_blob};
use block_id::{BlockId, Memory};
use check_walk::Marks;
use check_walk::store_api::Blocks;
use cryfs_check::{Place, path_at, visit_at};
use std::alloc::Global;

/// Gives each block that isn't given the path that it belongs to, where the others say so. Directories are loaded, and of files
/// the inner nodes. A load that is refused or fails ends nothing, and these blocks aren't asked for again from a blob's root on.
pub fn find_paths<B: Blocks>(
    alloc: Global,
    store: &mut B,
    live: &[BlockId],
    root: &BlockId,
    ungiven: &mut Vec<Ungiven>,
) -> Result<(), Memory>
    requires intact { B.meanings.intact store.old }
    requires order { T (is_sorted id_cmp (map unmarked live.now)) }
    ensures surveys { Surveys B.meanings B.holdings store.old store.new }
    ensures same { map ungiven_of ungiven.new.items ≡ map ungiven_of ungiven.old.items }
{
    let places = read_places(alloc, store, live, root, ungiven)?;
    let mut marks = Marks::new(alloc, live)?;
    explore_places(alloc, store, &mut marks, ungiven, &places, root)
}

/// Explores the blob of each place.
fn explore_places<B: Blocks>(
    alloc: Global,
    store: &mut B,
    marks: &mut Marks,
    ungiven: &mut Vec<Ungiven>,
    places: &[Place],
    root: &BlockId,
) -> Result<(), Memory>
    requires intact { B.meanings.intact store.old }
    requires behind { AreBehind (places_text places.now) }
    ensures surveys { Surveys B.meanings B.holdings store.old store.new }
    ensures same { map ungiven_of ungiven.new.items ≡ map ungiven_of ungiven.old.items }
{
    for number in 0..4294967295 {
        let what = match visit_at(places, root, number) {
            Some(what) => what,
            None => return Ok(()),
        };
        let path = path_at(alloc, places, number)?;
        explore_blob(alloc, store, marks, ungiven, &what.id, &path)?;
    }
    Err(Memory)
}
