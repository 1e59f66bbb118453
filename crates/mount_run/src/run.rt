// One mount, from the password line to its status.
ghost use Rattle.std.specs.Prelude.{◌≡◌};
ghost use Rattle.session_laws.specs.block_versions.Standing.{records};
ghost use Rattle.session_laws.specs.line_io.Streams.{stream_of};
ghost use Rattle.session_laws.specs.mount_core.Standing.{IsKeptMarked};
ghost use Rattle.session_laws.specs.Runs.{outside_of};
ghost use Rattle.run_status.specs.declared.status.Status.TheVariants.{Done};
ghost use Rattle.shell_runs.specs.Sessions.{Session};
ghost use Rattle.mount_run.specs.Clauses.{IsRefusedRun, NoFalseAlarm, KeepsTree, FaultsHappened, IsEmptied, HasHistory, Spares};
ghost use Rattle.mount_run.specs.Coming.{ComesMount};

use crate::requests::MountRequests;
use outside::{Keeper, Sink, Source, Vault};
use rand_core::Rng;
use run_status::{Ended, Storage};
use shell_runs::host_attributes::Attributed;
use shell_runs::run_session;
use std::alloc::Global;
use std::io::{Read, Write};
use std::time::Clock;

/// Opens the file system under the password line of the input, tells the output `.`, serves the requests until there are no more, and closes it.
/// The folder of the host is called by copies alone, so it isn't called.
pub fn run_mount<
    C: Clock,
    Q: Read,
    W: Write,
    E: Write,
    I: Source,
    O: Sink,
    F: Attributed,
    V: Vault,
    K: Keeper,
    R: Rng,
>(
    alloc: Global,
    requests: MountRequests<'_, C, Q, W, E>,
    input: &mut I,
    output: &mut O,
    storage: Storage<V, K>,
    chance: &mut R,
    host: &mut F,
) -> Ended<V, K>
    // What was answered.
    ensures session { Session V.trace V.faults K.Keeper
        (ComesMount (stream_of I.rest I.faults input.old input.new) (stream_of O.written O.faults output.old output.new))
        (stream_of I.rest I.faults input.old input.new) (stream_of O.written O.faults output.old output.new) storage.vault storage.keeper result }
    ensures history { HasHistory (ComesMount (stream_of I.rest I.faults input.old input.new) (stream_of O.written O.faults output.old output.new))
        (stream_of I.rest I.faults input.old input.new)
        (outside_of V.trace V.faults K.Keeper storage.vault storage.keeper) (outside_of V.trace V.faults K.Keeper result.vault result.keeper) }

    // What is kept.
    ensures refusal { IsKeptMarked records (K.kept storage.keeper)
        → IsRefusedRun K.kept (stream_of O.written O.faults output.old output.new) storage.vault storage.keeper result }
    ensures no_false_alarm { NoFalseAlarm (stream_of I.rest I.faults input.old input.new)
        (outside_of V.trace V.faults K.Keeper storage.vault storage.keeper) (outside_of V.trace V.faults K.Keeper result.vault result.keeper) result.status }
    ensures kept { KeepsTree (stream_of I.rest I.faults input.old input.new)
        (outside_of V.trace V.faults K.Keeper storage.vault storage.keeper) (outside_of V.trace V.faults K.Keeper result.vault result.keeper) }
    ensures done { result.status ≡ Done → IsEmptied (outside_of V.trace V.faults K.Keeper result.vault result.keeper) }

    // Which faults are told, what is drawn, and what is left alone.
    ensures faults_happened { FaultsHappened (outside_of V.trace V.faults K.Keeper storage.vault storage.keeper)
        (outside_of V.trace V.faults K.Keeper result.vault result.keeper) result.status }
    ensures spares { Spares (R.stream chance.old) (R.stream chance.new)
        (outside_of V.trace V.faults K.Keeper storage.vault storage.keeper) (outside_of V.trace V.faults K.Keeper result.vault result.keeper) host.old host.new }
{
    run_session(alloc, requests, input, output, storage, chance, host)
}
