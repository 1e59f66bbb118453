// The program's one call, over real folders.
ghost use Rattle.std.specs.Prelude.{◌≡◌, [], ◌∷◌, map};
ghost use Rattle.std.specs.String.{string_bytes};
ghost use Rattle.cryfs_shell.specs.shell_runs.Hosts.{host_of};
ghost use Rattle.cryfs_shell.specs.Streams.{streams_of};
ghost use Rattle.real_outside.specs.StreamsAdapters.{source_faults, sink_faults, written_by};
ghost use Rattle.program_run.specs.Calls.{IsRunCall};
ghost use Rattle.program_run.specs.Lists.{AreRunCalls};
ghost use Rattle.program_run.specs.Written.{WritesSession};
ghost use Rattle.program_run.specs.Program.{folder_calls, folder_faults, folder_names, folder_record, at_first, at_last, untold, told, program_call};

use crate::{Request, run_call};
use cryfs_shell::host_attributes::Attributed;
use program_inputs::Inputs;
use rand_core::Rng;
use real_outside::{FolderKeeper, FolderVault, ReaderSource, WriterSink};
use run_status::{Ended, Storage};
use std::alloc::Global;
use std::io::{Read, Write};

/// Runs the program with the words and the moment of these inputs, over this block folder and this record, and beside this folder for copies.
/// It is a call of `run`, after whatever calls the block folder tells: so all that is said of such a call holds of the calls on the folder
/// that this run adds, and of the bytes that it adds to those that the output took.
pub fn run_program<'a, I: Read, O: Write, R: Rng, F: Attributed>(
    alloc: Global,
    inputs: &Inputs,
    input: &mut ReaderSource<I>,
    output: &mut WriterSink<O>,
    storage: Storage<FolderVault<'a, HostRuntime>, FolderKeeper<'a, HostRuntime>>,
    chance: &mut R,
    host: &mut F,
) -> Ended<FolderVault<'a, HostRuntime>, FolderKeeper<'a, HostRuntime>>
    ensures call { IsRunCall folder_calls folder_faults folder_names folder_record
        (program_call (map string_bytes inputs.entry.now.words.items) inputs.entry.now.now
        (streams_of (untold (source_faults input.old) (source_faults input.new))
        (told (written_by output.old) (written_by output.new) (sink_faults output.old) (sink_faults output.new))
        (host_of F.Folder.tree F.attributes F.Folder.faults host.old host.new) (R.stream chance.old) (R.stream chance.new))
        (at_first storage.entry) (at_last result) result.status) }
    ensures listed { AreRunCalls folder_calls folder_faults folder_names folder_record (at_first storage.entry)
        (program_call (map string_bytes inputs.entry.now.words.items) inputs.entry.now.now
        (streams_of (untold (source_faults input.old) (source_faults input.new))
        (told (written_by output.old) (written_by output.new) (sink_faults output.old) (sink_faults output.new))
        (host_of F.Folder.tree F.attributes F.Folder.faults host.old host.new) (R.stream chance.old) (R.stream chance.new))
        (at_first storage.entry) (at_last result) result.status ∷ []) }
    ensures written { WritesSession (map string_bytes inputs.entry.now.words.items) inputs.entry.now.now
        (at_first storage.entry) (at_last result) (written_by output.old) (written_by output.new) }
{
    let request = Request {
        words: inputs.words.as_slice(),
        now: inputs.now,
    };
    run_call(alloc, request, input, output, storage, chance, host)
}
