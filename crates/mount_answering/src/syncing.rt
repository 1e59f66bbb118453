// What keeps what is present, over any durable store and keeper.
ghost use Rattle.std.specs.Prelude.{◌≡◌, false};
ghost use Rattle.mount_core.specs.record_saver.Saving.{world, Leaves};
ghost use Rattle.mount_core.specs.store_api.Lists.{MayConfigure};
ghost use Rattle.mount_core.specs.path_layer.Showing.{ShowsFiles};
ghost use Rattle.mount_core.specs.Answering.{CoreMoves, CoreSyncs, MakesRoom, CoreReplaces, CoreCloses};
ghost use Rattle.mount_core.specs.Standing.{Ready};
ghost use Rattle.mount_answering.specs.Replacing.{ReplaceWrites};

use crate::kinds::is_sync;
use block_id::Memory;
use fs_model::Command;
use mount_core::Core;
use mount_core::path_layer::BlobStore;
use mount_core::record_saver::{Saver, SyncError};
use mount_core::store_api::Durable;
use outside::Keeper;
use std::alloc::Global;

/// Bytes that wait before a line syncs first. A removal counts as 64.
const MOST_WAITING: usize = 8_388_608;

/// Keeps what is present: the record with the unwritten list, its files, the record with none. Where nothing changed
/// it makes no call. There was no violation.
pub fn sync<S: Durable, K: Keeper>(alloc: Global, core: &mut Core<S, K>) -> Result<(), SyncError>
    requires ready { Ready (world S.meanings S.holdings S.durables S.records K.Keeper) core.old }
    requires fresh { core.old.violated ≡ false }
    ensures moves { CoreMoves (world S.meanings S.holdings S.durables S.records K.Keeper) core.old core.new result }
    ensures syncs { CoreSyncs ShowsFiles (world S.meanings S.holdings S.durables S.records K.Keeper)
        core.old core.new result }
{
    core.saver.sync(alloc, &mut core.blobs.tx.store)
}

/// Syncs where much waits, or for `Sync`.
pub(crate) fn sync_first<S: Durable, K: Keeper>(
    alloc: Global,
    core: &mut Core<S, K>,
    command: &Command,
) -> Result<(), SyncError>
    requires ready { Ready (world S.meanings S.holdings S.durables S.records K.Keeper) core.old }
    requires fresh { core.old.violated ≡ false }
    ensures moves { CoreMoves (world S.meanings S.holdings S.durables S.records K.Keeper) core.old core.new result }
    ensures makes_room { MakesRoom ShowsFiles (world S.meanings S.holdings S.durables S.records K.Keeper)
        core.old command.now core.new result }
{
    if is_sync(command) || core.blobs.tx.store.weight() >= MOST_WAITING {
        return sync(alloc, core);
    }
    Ok(())
}

/// Has the configuration's file replaced by these bytes, and syncs. Where the bytes found no memory, nothing changed;
/// after another error they wait. There was no violation.
pub fn replace_config<S: Durable, K: Keeper>(
    alloc: Global,
    core: &mut Core<S, K>,
    bytes: Vec<u8>,
) -> Result<(), SyncError>
    requires ready { Ready (world S.meanings S.holdings S.durables S.records K.Keeper) core.old }
    requires fresh { core.old.violated ≡ false }
    requires may { MayConfigure bytes.items }
    ensures moves { CoreMoves (world S.meanings S.holdings S.durables S.records K.Keeper) core.old core.new result }
    ensures replaces { CoreReplaces ShowsFiles (world S.meanings S.holdings S.durables S.records K.Keeper)
        core.old bytes.items core.new result }
    ensures writes { ReplaceWrites (world S.meanings S.holdings S.durables S.records K.Keeper)
        core.old.blobs.tx.store bytes.items core.new.blobs.tx.store }
{
    match core.blobs.tx.store.put_config(alloc, bytes) {
        Ok(()) => {}
        Err(Memory) => return Err(SyncError::Memory),
    }
    core.saver.changed = true;
    sync(alloc, core)
}

/// Ends the session: syncs, or leaves all as it is where there was a violation.
pub fn close<S: Durable, K: Keeper>(
    alloc: Global,
    core: Core<S, K>,
) -> (Result<(), SyncError>, S, K)
    requires { Ready (world S.meanings S.holdings S.durables S.records K.Keeper) core }
    ensures leaves { Leaves (world S.meanings S.holdings S.durables S.records K.Keeper)
        core.blobs.tx.store core.saver.keeper result.1 result.2 result.0 }
    ensures closes { CoreCloses ShowsFiles (world S.meanings S.holdings S.durables S.records K.Keeper)
        core result.0 result.1 result.2 }
{
    let mut core = core;
    let result = if core.violated {
        Ok(())
    } else {
        sync(alloc, &mut core)
    };
    let Core {
        blobs: BlobStore { tx },
        saver,
        root: _,
        violated: _,
    } = core;
    let Saver {
        keeper,
        last: _,
        changed: _,
    } = saver;
    (result, tx.into_store(), keeper)
}
