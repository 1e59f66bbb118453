// Blocks of an older format, written anew.
ghost use Rattle.std.specs.Prelude.{◌≡◌, false};
ghost use Rattle.mount_opening.specs.mount_core.Showing.{ShowsFiles};
ghost use Rattle.mount.specs.Mounts.{IsReady};
ghost use Rattle.mount_calls.specs.Migrating.{MigratesMount};
ghost use Rattle.mount_calls.specs.Sealing.{SealsAnew};
ghost use Rattle.mount_migrating.specs.Migrating.{told};

use block_id::Memory;
use mount::Mount;
use mount_migrating::{MigrateError, migrate_ids};
use outside::{Keeper, Vault};
use rand_core::Rng;
use std::alloc::Global;

/// Writes each block anew in the newest format, and has the record say that no older one is taken; answers how many there
/// are. Where the record says so already, none is written and no call is made. After an error older formats are taken as
/// before, and a later call goes on. There was no violation.
pub fn migrate<V: Vault, K: Keeper, R: Rng>(
    alloc: Global,
    mount: &mut Mount<V, K>,
    chance: &mut R,
) -> Result<u64, MigrateError>
    requires ready { IsReady V.trace V.faults K.Keeper mount.old }
    requires fresh { mount.old.core.violated ≡ false }
    ensures ready { IsReady V.trace V.faults K.Keeper mount.new }
    ensures migrates { MigratesMount ShowsFiles V.trace V.faults K.Keeper mount.old result mount.new }
    ensures draws { SealsAnew V.trace K.Keeper (R.stream chance.old) (R.stream chance.new) mount.old (told result) mount.new }
{
    let state = mount.core.blobs.tx.store.store().state();
    if state.least >= 2 {
        return Ok(0);
    }
    let ids = match state.known.live_ids(alloc) {
        Ok(ids) => ids,
        Err(Memory) => return Err(MigrateError::Memory),
    };
    match migrate_ids(alloc, &mut mount.core, &ids, chance) {
        Ok(()) => Ok(ids.len() as u64),
        Err(error) => Err(error),
    }
}
