// All blocks, and the record.
ghost use Rattle.std.specs.Prelude.{◌≡◌, false, map, OnOk};
ghost use Rattle.mount_answering.specs.data_tree.Trees.{NoDoubles};
ghost use Rattle.mount_answering.specs.record_saver.Saving.{world};
ghost use Rattle.mount_answering.specs.mount_core.Showing.{ShowsFiles};
ghost use Rattle.mount_answering.specs.mount_core.Standing.{Ready};
ghost use Rattle.mount_migrating.specs.Drawing.{DrawsAnew, DrawsMarked};
ghost use Rattle.mount_migrating.specs.Migrating.{told, AreLive, IsMigratedRecord, Migrates, Moves};
ghost use Rattle.mount_migrating.specs.Noticing.{PassesNone};

use crate::error::MigrateError;
use crate::raising::raise_least;
use crate::renewing::{keep_present, renew_all};
use block_id::BlockId;
use mount_answering::mark;
use mount_answering::mount_core::Core;
use mount_answering::store_api::Durable;
use outside::Keeper;
use rand_core::Rng;
use std::alloc::Global;

/// Writes the blocks anew, keeps them, and then has the record say so.
fn migrate_blocks<S: Durable, K: Keeper, R: Rng>(
    alloc: Global,
    core: &mut Core<S, K>,
    ids: &[BlockId],
    chance: &mut R,
) -> Result<(), MigrateError>
    requires ready { Ready (world S.meanings S.holdings S.durables S.records K.Keeper) core.old }
    requires fresh { core.old.violated ≡ false }
    requires live { AreLive S.holdings core.old.blobs.tx.store (map (λ id. id.0) ids.now) }
    requires once { NoDoubles (map (λ id. id.0) ids.now) }
    ensures ready { Ready (world S.meanings S.holdings S.durables S.records K.Keeper) core.new }
    ensures moves { Moves ShowsFiles (world S.meanings S.holdings S.durables S.records K.Keeper)
        core.old (map (λ id. id.0) ids.now) result core.new }
    ensures noticed { PassesNone S.meanings S.holdings S.durables S.applied core.old.blobs.tx.store (told result) core.new.blobs.tx.store }
    ensures draws { DrawsAnew (world S.meanings S.holdings S.durables S.records K.Keeper) S.applied S.drawn
        core.old core.new (R.stream chance.old) (R.stream chance.new) }
{
    match renew_all(alloc, core, ids, chance) {
        Ok(()) => {}
        Err(error) => return Err(error),
    }
    match keep_present(alloc, core) {
        Ok(()) => raise_least(alloc, core),
        Err(error) => Err(error),
    }
}

/// Writes each block of the content anew as a file of the newest format, in this order, each in a batch of its own, with a
/// sync where 8 MiB wait and one at the end. Then no older format is taken, and the record that says so is kept, with an
/// empty list. After an error older formats are taken as before, and a later call goes on. A violation marks the last
/// record, and has it kept. There was no violation.
pub fn migrate_ids<S: Durable, K: Keeper, R: Rng>(
    alloc: Global,
    core: &mut Core<S, K>,
    ids: &[BlockId],
    chance: &mut R,
) -> Result<(), MigrateError>
    requires ready { Ready (world S.meanings S.holdings S.durables S.records K.Keeper) core.old }
    requires fresh { core.old.violated ≡ false }
    requires live { AreLive S.holdings core.old.blobs.tx.store (map (λ id. id.0) ids.now) }
    requires once { NoDoubles (map (λ id. id.0) ids.now) }
    ensures ready { Ready (world S.meanings S.holdings S.durables S.records K.Keeper) core.new }
    ensures migrates { Migrates ShowsFiles (world S.meanings S.holdings S.durables S.records K.Keeper)
        core.old (map (λ id. id.0) ids.now) result core.new }
    ensures noticed { PassesNone S.meanings S.holdings S.durables S.applied core.old.blobs.tx.store (told result) core.new.blobs.tx.store }
    ensures draws { DrawsMarked (world S.meanings S.holdings S.durables S.records K.Keeper) S.applied S.drawn
        core.old (told result) core.new (R.stream chance.old) (R.stream chance.new) }
{
    match migrate_blocks(alloc, core, ids, chance) {
        Ok(()) => Ok(()),
        Err(error) => {
            match error {
                MigrateError::Violation(_) => mark(core),
                _ => {}
            }
            Err(error)
        }
    }
}
