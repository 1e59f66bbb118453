// A survey of the blocks of a store.
ghost use Rattle.std.specs.Prelude.{◌≡◌, ◌≤◌, [], map, true, is_some, OnOk, OnErr};
ghost use Rattle.check_walk.specs.store_api.Content.{Id};
ghost use Rattle.check_walk.specs.store_api.Holdings.{has_id};
ghost use Rattle.check_walk.specs.data_nodes.Layout.{ids_of};
ghost use Rattle.check_refused.specs.Surveys.{Counts, IsAsked, IsSurvey, IsCutShort, Surveys, ungiven_of, refusals};

use block_id::{BlockId, Fail, Memory, Why};
use check_walk::store_api::Blocks;
use fs_model::Path;
use std::alloc::Global;

/// A block whose payload didn't come: its verdict refuses it, or a call on the outside failed.
#[derive(Drop)]
pub struct Ungiven {
    pub id: BlockId,
    /// The verdict that refuses the block, or None where the call failed.
    pub why: Option<Why>,
    /// The path that the block belongs to, where it is known.
    pub path: Option<Path>,
}

/// Asks for each of these blocks once, in their order, and lists those whose payload doesn't come, without their paths. A
/// call that fails ends nothing.
pub fn survey_blocks<B: Blocks>(
    alloc: Global,
    store: &mut B,
    live: &[BlockId],
    ungiven: &mut Vec<Ungiven>,
) -> Result<(), Memory>
    requires intact { B.meanings.intact store.old }
    requires live { (id : Id) → has_id (ids_of live.now) id ≡ true → is_some (B.holdings.content store.old id) ≡ true }
    requires none { ungiven.old.items ≡ [] }
    ensures surveys { Surveys B.meanings B.holdings store.old store.new }
    ensures surveyed { OnOk result (IsSurvey B.loads (ids_of live.now) store.old store.new (map ungiven_of ungiven.new.items)) }
    ensures cut { OnErr result (IsCutShort B.loads (ids_of live.now) store.old store.new (map ungiven_of ungiven.new.items)) }
    ensures counts { Counts (B.meanings.faults store.old) (B.meanings.faults store.new) (map ungiven_of ungiven.new.items) result }
    ensures calm { B.meanings.sound store.old → B.meanings.lies store.new ≤ B.meanings.lies store.old → refusals (map ungiven_of ungiven.new.items) ≡ 0 }
{
    for id in live {
        survey_next(alloc, store, id, ungiven)?;
    }
    Ok(())
}

/// Asks for the block, and puts it behind the others where its payload doesn't come.
fn survey_next<B: Blocks>(
    alloc: Global,
    store: &mut B,
    id: &BlockId,
    ungiven: &mut Vec<Ungiven>,
) -> Result<(), Memory>
    requires intact { B.meanings.intact store.old }
    requires live { is_some (B.holdings.content store.old id.now.0) ≡ true }
    ensures surveys { Surveys B.meanings B.holdings store.old store.new }
    ensures asked { IsAsked B.meanings B.loads store.old store.new id.now.0 (map ungiven_of ungiven.old.items) (map ungiven_of ungiven.new.items) result }
{
    let why = match store.load(alloc, id) {
        Ok(_) => return Ok(()),
        Err(Fail::Violation(why)) => Some(why),
        Err(Fail::Fault) => None,
        Err(Fail::Memory) => return Err(Memory),
    };
    let block = Ungiven {
        id: *id,
        why,
        path: None,
    };
    match ungiven.push(block) {
        Ok(()) => Ok(()),
        Err(_block) => Err(Memory),
    }
}

/// Whether the block is among those that aren't given, which stand by increasing ids.
pub(crate) fn is_among(ungiven: &[Ungiven], id: &BlockId) -> bool {
    ungiven.binary_search_by(|block| block.id.cmp(id)).is_ok()
}
