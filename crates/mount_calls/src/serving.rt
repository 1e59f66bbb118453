// What an opened file system does.
ghost use Rattle.std.specs.Prelude.{◌≡◌, true, false};
ghost use Rattle.mount.specs.config_file.Sealing.{sealed_file};
ghost use Rattle.mount.specs.config_file.Settings.{settings_of};
ghost use Rattle.fs_model.specs.Fitting.{IsFitting};
ghost use Rattle.fs_model.specs.declared.reply.Reply.TheVariants.{Done};
ghost use Rattle.mount_opening.specs.mount_core.Showing.{ShowsFiles, is_sync};
ghost use Rattle.mount.specs.mount_stores.Drawing.{seal_drawn};
ghost use Rattle.mount.specs.Answering.{MountAnswers};
ghost use Rattle.mount.specs.Mounts.{IsReady};
ghost use Rattle.mount.specs.Sealing.{SealsFresh, view_of};
ghost use Rattle.mount.specs.Serving.{MountMoves, MountSyncs, ChangesPassword, MountLeaves, MountCloses};
ghost use Rattle.mount_calls.specs.Condemning.{Condemns};

use fs_model::{Command, Moment};
use mount::Mount;
use mount::config_file::seal_config;
use mount::mount_stores::{draw_seal, into_vault};
use mount_migrating::mount_answering::{mark, replace_config};
use mount_opening::answers::Answer;
use mount_opening::record_saver::SyncError;
use outside::{Keeper, Vault};
use rand_core::Rng;
use std::alloc::Global;

/// Answers a command.
pub fn answer<V: Vault, K: Keeper, R: Rng>(
    alloc: Global,
    mount: &mut Mount<V, K>,
    now: Moment,
    command: &Command,
    chance: &mut R,
) -> Answer
    requires ready { IsReady V.trace V.faults K.Keeper mount.old }
    requires fits { IsFitting command.now }
    ensures ready { IsReady V.trace V.faults K.Keeper mount.new }
    ensures answers { MountAnswers ShowsFiles V.trace V.faults K.Keeper now mount.old (Ok command.now) result
        mount.new }
    ensures unmoved { is_sync command.now ≡ true → mount.old.core.violated ≡ false
        → mount.old.core.saver.changed ≡ false → (result ≡ Answer.Reply Done) × (mount.new ≡ mount.old) }
    ensures draws { SealsFresh (R.stream chance.old) (R.stream chance.new) (view_of V.trace mount.old)
        (view_of V.trace mount.new) }
{
    mount_migrating::mount_answering::answer(alloc, &mut mount.core, now, command, chance)
}

/// Keeps what is present. There was no violation.
pub fn sync<V: Vault, K: Keeper>(alloc: Global, mount: &mut Mount<V, K>) -> Result<(), SyncError>
    requires ready { IsReady V.trace V.faults K.Keeper mount.old }
    requires fresh { mount.old.core.violated ≡ false }
    ensures moves { MountMoves V.trace V.faults K.Keeper mount.old mount.new result }
    ensures syncs { MountSyncs ShowsFiles V.trace V.faults K.Keeper mount.old mount.new result }
{
    mount_migrating::mount_answering::sync(alloc, &mut mount.core)
}

/// Seals the configuration under a new password, with the same parameters and new random bytes, and syncs. There was no
/// violation.
pub fn change_password<V: Vault, K: Keeper, R: Rng>(
    alloc: Global,
    mount: &mut Mount<V, K>,
    password: &[u8],
    chance: &mut R,
) -> Result<(), SyncError>
    requires ready { IsReady V.trace V.faults K.Keeper mount.old }
    requires fresh { mount.old.core.violated ≡ false }
    ensures moves { MountMoves V.trace V.faults K.Keeper mount.old mount.new result }
    ensures changes { ChangesPassword ShowsFiles V.trace V.faults K.Keeper mount.old password.now
        (sealed_file password.now mount.old.opened.params (seal_drawn (R.stream chance.old)).0 (settings_of mount.old.opened.config)) mount.new result }
    ensures draws { R.stream chance.new ≡ (seal_drawn (R.stream chance.old)).1 }
{
    let draws = draw_seal(chance);
    let Ok(file) = seal_config(
        alloc,
        password,
        &mount.opened.params,
        &draws,
        &mount.opened.config,
    ) else {
        return Err(SyncError::Memory);
    };
    replace_config(alloc, &mut mount.core, file)
}

/// Marks the last record and has it kept, as after a violation: later commands are refused, and closing leaves all as it is.
pub fn condemn<V: Vault, K: Keeper>(mount: &mut Mount<V, K>)
    requires { IsReady V.trace V.faults K.Keeper mount.old }
    ensures { Condemns V.trace V.faults K.Keeper mount.old mount.new }
{
    mark(&mut mount.core)
}

/// Ends the session: syncs, or leaves all as it is where there was a violation.
pub fn close<V: Vault, K: Keeper>(
    alloc: Global,
    mount: Mount<V, K>,
) -> (Result<(), SyncError>, V, K)
    requires ready { IsReady V.trace V.faults K.Keeper mount }
    ensures leaves { MountLeaves V.trace V.faults K.Keeper mount result.0 result.1 result.2 }
    ensures closes { MountCloses ShowsFiles V.trace V.faults K.Keeper mount result.0 result.1 result.2 }
{
    let Mount { core, opened: _ } = mount;
    let (result, store, keeper) = mount_migrating::mount_answering::close(alloc, core);
    (result, into_vault(store), keeper)
}
