// Blocks that are written anew.
ghost use Rattle.std.specs.Prelude.{◌≡◌, ◌<◌, true, false, is_some, [], ◌∷◌, map, OnOk};
ghost use Rattle.fs_model.specs.Tree.{Tree};
ghost use Rattle.mount_answering.specs.data_tree.Trees.{NoDoubles};
ghost use Rattle.mount_answering.specs.record_saver.Saving.{world};
ghost use Rattle.mount_answering.specs.store_api.Lists.{waiting_bytes};
ghost use Rattle.mount_answering.specs.mount_core.Showing.{ShowsFiles};
ghost use Rattle.mount_answering.specs.mount_core.Drawing.{DrawsOnce, NamesKnown};
ghost use Rattle.mount_answering.specs.mount_core.Standing.{CoreStands, Ready};
ghost use Rattle.mount_migrating.specs.Drawing.{DrawsAlong, StepDraws, SyncLeaves};
ghost use Rattle.mount_migrating.specs.Migrating.{told, AreLive, Renews, Rests};
ghost use Rattle.mount_migrating.specs.Noticing.{NoticedAlong};

use crate::error::{MigrateError, apply_error, load_error, sync_error};
use block_id::{BlockId, Memory};
use mount_answering::mount_core::Core;
use mount_answering::store_api::{Batch, Blocks, BlocksMut, Durable};
use mount_answering::sync;
use outside::Keeper;
use rand_core::Rng;
use std::alloc::Global;

/// Bytes that wait before the next block comes after a sync.
const MOST_WAITING: usize = 8_388_608;

/// Keeps what is present.
pub(crate) fn keep_present<S: Durable, K: Keeper>(
    alloc: Global,
    core: &mut Core<S, K>,
) -> Result<(), MigrateError>
    requires ready { Ready (world S.meanings S.holdings S.durables S.records K.Keeper) core.old }
    requires fresh { core.old.violated ≡ false }
    ensures ready { Ready (world S.meanings S.holdings S.durables S.records K.Keeper) core.new }
    ensures rests { Rests ShowsFiles (world S.meanings S.holdings S.durables S.records K.Keeper) core.old result core.new }
    ensures noticed { NoticedAlong S.meanings S.holdings S.durables S.applied core.old.blobs.tx.store (told result) core.new.blobs.tx.store }
    ensures leaves { SyncLeaves (world S.meanings S.holdings S.durables S.records K.Keeper) core.old core.new }
    ensures whole { OnOk result (core.new.saver.changed ≡ false) }
    ensures kept { OnOk result ((kept now : Tree) → CoreStands ShowsFiles (world S.meanings S.holdings S.durables S.records K.Keeper) core.old kept now
        → CoreStands ShowsFiles (world S.meanings S.holdings S.durables S.records K.Keeper) core.new now now) }
{
    match sync(alloc, core) {
        Ok(()) => Ok(()),
        Err(error) => Err(sync_error(error)),
    }
}

/// Keeps what is present where 8 MiB wait.
fn make_room<S: Durable, K: Keeper>(
    alloc: Global,
    core: &mut Core<S, K>,
) -> Result<(), MigrateError>
    requires ready { Ready (world S.meanings S.holdings S.durables S.records K.Keeper) core.old }
    requires fresh { core.old.violated ≡ false }
    ensures ready { Ready (world S.meanings S.holdings S.durables S.records K.Keeper) core.new }
    ensures rests { Rests ShowsFiles (world S.meanings S.holdings S.durables S.records K.Keeper) core.old result core.new }
    ensures noticed { NoticedAlong S.meanings S.holdings S.durables S.applied core.old.blobs.tx.store (told result) core.new.blobs.tx.store }
    ensures leaves { SyncLeaves (world S.meanings S.holdings S.durables S.records K.Keeper) core.old core.new }
    ensures few { OnOk result (waiting_bytes (S.durables.list core.new.blobs.tx.store) < 8388608) }
{
    if core.blobs.tx.store.buffered() >= MOST_WAITING {
        return keep_present(alloc, core);
    }
    Ok(())
}

/// Loads a block of the content, and has its payload wait as a file of the newest format.
fn renew<S: Durable, K: Keeper, R: Rng>(
    alloc: Global,
    core: &mut Core<S, K>,
    id: &BlockId,
    chance: &mut R,
) -> Result<(), MigrateError>
    requires ready { Ready (world S.meanings S.holdings S.durables S.records K.Keeper) core.old }
    requires live { is_some (S.holdings.content core.old.blobs.tx.store id.now.0) ≡ true }
    ensures ready { Ready (world S.meanings S.holdings S.durables S.records K.Keeper) core.new }
    ensures renews { Renews ShowsFiles (world S.meanings S.holdings S.durables S.records K.Keeper)
        core.old (id.now.0 ∷ []) result core.new }
    ensures noticed { NoticedAlong S.meanings S.holdings S.durables S.applied core.old.blobs.tx.store (told result) core.new.blobs.tx.store }
    ensures draws { DrawsOnce S.meanings (NamesKnown S.holdings) S.applied S.drawn core.old.blobs.tx.store core.new.blobs.tx.store
        (R.stream chance.old) (R.stream chance.new) }
    ensures keeper { core.new.saver.keeper ≡ core.old.saver.keeper }
    ensures last { core.new.saver.last ≡ core.old.saver.last }
{
    let payload = match core.blobs.tx.store.load(alloc, id) {
        Ok(Some(payload)) => payload,
        Ok(None) => unreachable!(),
        Err(fail) => return Err(load_error(fail)),
    };
    let mut batch = Batch::new(alloc);
    match batch.put(id, payload) {
        Ok(()) => {}
        Err(Memory) => return Err(MigrateError::Memory),
    }
    match core.blobs.tx.store.apply(alloc, &batch, chance) {
        Ok(()) => {
            core.saver.changed = true;
            Ok(())
        }
        Err(error) => Err(apply_error(error)),
    }
}

/// The same, after a sync where 8 MiB wait.
fn renew_next<S: Durable, K: Keeper, R: Rng>(
    alloc: Global,
    core: &mut Core<S, K>,
    id: &BlockId,
    chance: &mut R,
) -> Result<(), MigrateError>
    requires ready { Ready (world S.meanings S.holdings S.durables S.records K.Keeper) core.old }
    requires fresh { core.old.violated ≡ false }
    requires live { is_some (S.holdings.content core.old.blobs.tx.store id.now.0) ≡ true }
    ensures ready { Ready (world S.meanings S.holdings S.durables S.records K.Keeper) core.new }
    ensures renews { Renews ShowsFiles (world S.meanings S.holdings S.durables S.records K.Keeper)
        core.old (id.now.0 ∷ []) result core.new }
    ensures noticed { NoticedAlong S.meanings S.holdings S.durables S.applied core.old.blobs.tx.store (told result) core.new.blobs.tx.store }
    ensures draws { StepDraws (world S.meanings S.holdings S.durables S.records K.Keeper) S.applied S.drawn
        core.old core.new (R.stream chance.old) (R.stream chance.new) }
{
    match make_room(alloc, core) {
        Ok(()) => renew(alloc, core, id, chance),
        Err(error) => Err(error),
    }
}

/// Writes each block of the content anew, in this order.
pub(crate) fn renew_all<S: Durable, K: Keeper, R: Rng>(
    alloc: Global,
    core: &mut Core<S, K>,
    ids: &[BlockId],
    chance: &mut R,
) -> Result<(), MigrateError>
    requires ready { Ready (world S.meanings S.holdings S.durables S.records K.Keeper) core.old }
    requires fresh { core.old.violated ≡ false }
    requires live { AreLive S.holdings core.old.blobs.tx.store (map (λ id. id.0) ids.now) }
    requires once { NoDoubles (map (λ id. id.0) ids.now) }
    ensures ready { Ready (world S.meanings S.holdings S.durables S.records K.Keeper) core.new }
    ensures renews { Renews ShowsFiles (world S.meanings S.holdings S.durables S.records K.Keeper)
        core.old (map (λ id. id.0) ids.now) result core.new }
    ensures noticed { NoticedAlong S.meanings S.holdings S.durables S.applied core.old.blobs.tx.store (told result) core.new.blobs.tx.store }
    ensures draws { DrawsAlong (world S.meanings S.holdings S.durables S.records K.Keeper) S.applied S.drawn
        core.old core.new (R.stream chance.old) (R.stream chance.new) }
{
    for id in ids {
        match renew_next(alloc, core, id, chance) {
            Ok(()) => {}
            Err(error) => return Err(error),
        }
    }
    Ok(())
}
