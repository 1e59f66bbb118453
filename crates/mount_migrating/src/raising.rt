// The record that says that no older format is taken.
ghost use Rattle.std.specs.Prelude.{◌≡◌, false, OnOk, OnErr};
ghost use Rattle.mount_answering.specs.record_saver.Saving.{world};
ghost use Rattle.mount_answering.specs.store_api.Durables.{MayBeLeast};
ghost use Rattle.mount_answering.specs.mount_core.Showing.{ShowsFiles};
ghost use Rattle.mount_answering.specs.mount_core.Standing.{Ready};
ghost use Rattle.mount_migrating.specs.Drawing.{SetsOnly};
ghost use Rattle.mount_migrating.specs.Migrating.{IsMigratedRecord, Rests};

use crate::error::{MigrateError, sync_error};
use mount_answering::mount_core::Core;
use mount_answering::store_api::Durable;
use outside::Keeper;
use std::alloc::Global;

/// No older format is taken any more, and the record that says so is kept; where it isn't, older ones are taken as before,
/// and the next sync keeps that.
pub(crate) fn raise_least<S: Durable, K: Keeper>(
    alloc: Global,
    core: &mut Core<S, K>,
) -> Result<(), MigrateError>
    requires ready { Ready (world S.meanings S.holdings S.durables S.records K.Keeper) core.old }
    requires may { MayBeLeast S.durables S.holdings core.old.blobs.tx.store 2 }
    requires whole { core.old.saver.changed ≡ false }
    ensures ready { Ready (world S.meanings S.holdings S.durables S.records K.Keeper) core.new }
    ensures rests { Rests ShowsFiles (world S.meanings S.holdings S.durables S.records K.Keeper) core.old result core.new }
    ensures sets { SetsOnly (world S.meanings S.holdings S.durables S.records K.Keeper) core.old core.new }
    ensures least { OnErr result (S.durables.least core.new.blobs.tx.store ≡ 1) }
    ensures done { OnOk result (IsMigratedRecord (world S.meanings S.holdings S.durables S.records K.Keeper) core.new) }
{
    core.blobs.tx.store.set_least(2);
    match core.saver.keep_short(alloc, &mut core.blobs.tx.store) {
        Ok(()) => Ok(()),
        Err(error) => {
            core.blobs.tx.store.set_least(1);
            core.saver.changed = true;
            Err(sync_error(error))
        }
    }
}
