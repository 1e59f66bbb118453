// The program's call as plain values.
ghost use Rattle.std.specs.Prelude.{map, [], ◌∷◌};
ghost use Rattle.std.specs.String.{string_bytes};
ghost use Rattle.cryfs_shell.specs.shell_runs.Hosts.{host_of};
ghost use Rattle.cryfs_shell.specs.Streams.{streams_of};
ghost use Rattle.cryfs_shell.specs.line_io.Streams.{stream_of};
ghost use Rattle.cryfs_shell.specs.session_laws.Runs.{outside_of};
ghost use Rattle.program_run.specs.Calls.{IsRunCall, call_of};
ghost use Rattle.program_run.specs.Lists.{AreRunCalls};

use cryfs_shell::host_attributes::Attributed;
use cryfs_shell::{Ended, Request, Storage, run};
use outside::{Keeper, Listing, Sink, Source, Vault};
use rand_core::Rng;
use std::alloc::Global;

/// Calls `run`: so each call of it is one of those that the laws speak of, and so is the list of it alone.
pub fn run_call<I: Source, O: Sink, V: Vault + Listing, K: Keeper, R: Rng, F: Attributed>(
    alloc: Global,
    request: Request<'_>,
    input: &mut I,
    output: &mut O,
    storage: Storage<V, K>,
    chance: &mut R,
    host: &mut F,
) -> Ended<V, K>
    ensures call { IsRunCall V.trace V.faults V.names K.Keeper (call_of V.trace V.faults K.Keeper (map string_bytes request.entry.words.now) request.entry.now
        (streams_of (stream_of I.rest I.faults input.old input.new) (stream_of O.written O.faults output.old output.new)
        (host_of F.Folder.tree F.attributes F.Folder.faults host.old host.new) (R.stream chance.old) (R.stream chance.new)) storage.vault storage.keeper result) }
    ensures listed { AreRunCalls V.trace V.faults V.names K.Keeper (outside_of V.trace V.faults K.Keeper storage.vault storage.keeper)
        (call_of V.trace V.faults K.Keeper (map string_bytes request.entry.words.now) request.entry.now
        (streams_of (stream_of I.rest I.faults input.old input.new) (stream_of O.written O.faults output.old output.new)
        (host_of F.Folder.tree F.attributes F.Folder.faults host.old host.new) (R.stream chance.old) (R.stream chance.new)) storage.vault storage.keeper result ∷ []) }
{
    let Request { words, now } = request;
    run(
        alloc,
        Request { words, now },
        input,
        output,
        storage,
        chance,
        host,
    )
}
