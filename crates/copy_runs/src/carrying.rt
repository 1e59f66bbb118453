// Copies between the opened file system and a folder of the host.
ghost use Rattle.std.specs.Prelude.{◌≡◌, ◌≤◌, List, Result};
ghost use Rattle.copy_attributes.specs.Passes.{Asks};
ghost use Rattle.copy_file.specs.line_io.Streams.{stream_of, Stream};
ghost use Rattle.copy_file.specs.answers.Hosts.{Ran};
ghost use Rattle.copy_file.specs.answers.Sessions.{Exchange, AllAt};
ghost use Rattle.copy_file.specs.session_lines.Driven.{IsUnfailed};
ghost use Rattle.copy_file.specs.copy_sessions.declared.way.Way.{Way};
ghost use Rattle.shell_runs.specs.Hosts.{HostSeen, host_of};
ghost use Rattle.shell_runs.specs.mount.Mounts.{IsReady};
ghost use Rattle.shell_runs.specs.run_frame.Statuses.{IsOwn};
ghost use Rattle.shell_runs.specs.Mounting.{mounted_hosting};
ghost use Rattle.copy_attributes.specs.tree_copy.host_folder.Folders.{HostPath};
ghost use Rattle.copy_attributes.specs.tree_copy.copy_laws.declared.copied.CopyFail.{CopyFail};
ghost use Rattle.copy_attributes.specs.tree_copy.copy_laws.declared.copied.Totals.{Totals};
ghost use Rattle.copy_attributes.specs.tree_copy.copy_laws.Ends.{HostCause, StopCause};
ghost use Rattle.copy_attributes.specs.tree_copy.copy_laws.Questions.{Question};
ghost use Rattle.copy_runs.specs.Asking.{IsFresh};
ghost use Rattle.copy_runs.specs.Sessions.{IsCopySession};

use crate::asker::MountAsker;
use copy_attributes::host_attributes::Attributed;
use copy_attributes::tree_copy::copy_laws::{Asker, CopyFail, Totals};
use copy_file::copy_sessions::{CopyText, Way, tell_copy};
use copy_file::session_lines::End;
use fs_model::Path;
use outside::{Keeper, Sink, Vault};
use rand_core::Rng;
use run_status::Status;
use std::alloc::Global;

/// Copies what is below a path into a folder of the host, or a folder to below it. `carriage` tells what it asks, by what
/// the folder was and is, and `goes` which way it goes.
pub(crate) trait Carries {
    ghost goes: { Way };

    ghost carriage: { HostSeen → HostPath → List Question → Result Totals CopyFail → Type 0 };

    /// Which way it goes.
    fn way(&self) -> Way
        ensures { result ≡ goes };

    /// Copies.
    fn carry<F: Attributed, A: Asker>(
        &self,
        alloc: Global,
        host: &mut F,
        asker: &mut A,
        path: &Path,
    ) -> Result<Totals, CopyFail>
        requires ready { A.asking.ready asker.old }
        ensures ready { A.asking.ready asker.new }
        ensures host { HostCause (F.Folder.faults host.old) (F.Folder.faults host.new) result }
        ensures stops { StopCause (A.asking.stops asker.old) (A.asking.stops asker.new) result }
        ensures carried { Asks A.asking asker.old asker.new
            (λ qs. carriage (host_of F.Folder.tree F.attributes F.Folder.faults host.old host.new) path.now qs result) };
}

/// Copies, and prints how that ended.
pub(crate) fn copy_told<C: Carries, F: Attributed, O: Sink, V: Vault, K: Keeper, R: Rng>(
    alloc: Global,
    copy: &C,
    asker: &mut MountAsker<'_, V, K, R>,
    path: &Path,
    host: &mut F,
    text: &mut CopyText,
    output: &mut O,
) -> (End, Status)
    requires fresh { IsFresh V.trace V.faults K.Keeper asker.old }
    ensures ready { IsReady V.trace V.faults K.Keeper asker.new.mounted.mount }
    ensures chance { asker.new.mounted.chance.ghost_name ≡ asker.old.mounted.chance.ghost_name }
    ensures copied { (es : List Exchange) × Ran (mounted_hosting R.stream V.trace V.faults K.Keeper) asker.old.mounted es asker.new.mounted
        × AllAt asker.old.now es
        × ((input : Stream) → IsUnfailed input → IsCopySession C.goes (C.carriage (host_of F.Folder.tree F.attributes F.Folder.faults host.old host.new) path.now)
        (F.Folder.faults host.old) (F.Folder.faults host.new) input (stream_of O.written O.faults output.old output.new) result.0 result.1 es) }
    ensures own { IsOwn result.1 }
    ensures host_grows { F.Folder.faults host.old ≤ F.Folder.faults host.new }
    ensures output_grows { O.faults output.old ≤ O.faults output.new }
{
    let copied = copy.carry(alloc, host, asker, path);
    tell_copy(text, copy.way(), copied, &asker.kept, output)
}
