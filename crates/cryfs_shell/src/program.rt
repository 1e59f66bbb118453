// The top call.
ghost use Rattle.std.specs.Prelude.{◌≡◌, ◌≤◌, true, false, map, IfOk};
ghost use Rattle.std.specs.declared.option.Option.TheVariants.{Some};
ghost use Rattle.std.specs.String.{string_bytes};
ghost use Rattle.session_laws.specs.block_versions.Standing.{records};
ghost use Rattle.trial_runs.specs.line_io.Streams.{stream_of};
ghost use Rattle.check_runs.specs.mount_core.Standing.{IsKeptMarked};
ghost use Rattle.session_laws.specs.Drawing.{DrawsVectors, DrawsAs};
ghost use Rattle.looking.specs.Runs.{RanLook};
ghost use Rattle.session_laws.specs.Openings.{HasCauses};
ghost use Rattle.session_laws.specs.Runs.{outside_of, IsLookedRun};
ghost use Rattle.copy_runs.specs.shell_runs.Sessions.{Session, ComesCommand};
ghost use Rattle.program_words.specs.Forms.{form_of, joined, words_behind, IsModest};
ghost use Rattle.cryfs_shell.specs.Clauses.{IsRefusedRun, NoFalseAlarm, KeepsTree, TellsFaults, StatusSays, Spares};
ghost use Rattle.cryfs_shell.specs.Doing.{Did, IsCaused};
ghost use Rattle.cryfs_shell.specs.History.{HasHistory};
ghost use Rattle.copy_runs.specs.shell_runs.Hosts.{host_of};
ghost use Rattle.cryfs_shell.specs.Kinds.{opens, is_look, heeds_mark, is_migration, draws, copies, seals};
ghost use Rattle.cryfs_shell.specs.Streams.{NoneFalls, streams_of};

use crate::request::Request;
use block_id::Memory;
use check_runs::{run_check, run_create, run_info, run_migrate, run_passwd, run_survey};
use copy_runs::host_attributes::Attributed;
use copy_runs::{
    Export, ExportTimes, GeneratedCommands, Get, Import, ImportTimes, Put, ShellLines, SingleLine,
    run_session,
};
use fs_model::Moment;
use looking::run_look;
use outside::{Keeper, Listing, Sink, Source, Vault};
use program_words::{CreateOptions, Form, joined, read_form};
use rand_core::Rng;
use run_status::{Ended, Status, Storage};
use std::alloc::Global;
use trial_runs::{try_generated, try_lines};

/// Runs the program with the words of this request, at its moment, from this input to this output, over this block
/// directory and this local record, with these random bytes, and beside this folder of the host for copies.
pub fn run<I: Source, O: Sink, V: Vault + Listing, K: Keeper, R: Rng, F: Attributed>(
    alloc: Global,
    request: Request<'_>,
    input: &mut I,
    output: &mut O,
    storage: Storage<V, K>,
    chance: &mut R,
    host: &mut F,
) -> Ended<V, K>
    // What was answered, by what the words ask for.
    ensures did { Did V.trace V.faults V.names K.Keeper (map string_bytes request.entry.words.now) request.entry.now
        (streams_of (stream_of I.rest I.faults input.old input.new) (stream_of O.written O.faults output.old output.new)
        (host_of F.Folder.tree F.attributes F.Folder.faults host.old host.new) (R.stream chance.old) (R.stream chance.new))
        storage.vault storage.keeper result (form_of (map string_bytes request.entry.words.now)) }

    // What is kept.
    ensures refusal { heeds_mark (form_of (map string_bytes request.entry.words.now)) ≡ true → IsKeptMarked records (K.kept storage.keeper)
        → IsRefusedRun K.kept (stream_of O.written O.faults output.old output.new) storage.vault storage.keeper result }
    ensures no_false_alarm { is_look (form_of (map string_bytes request.entry.words.now)) ≡ false → NoFalseAlarm (stream_of I.rest I.faults input.old input.new)
        (outside_of V.trace V.faults K.Keeper storage.vault storage.keeper) (outside_of V.trace V.faults K.Keeper result.vault result.keeper) result.status }
    ensures kept { opens (form_of (map string_bytes request.entry.words.now)) ≡ true → KeepsTree (stream_of I.rest I.faults input.old input.new)
        (outside_of V.trace V.faults K.Keeper storage.vault storage.keeper) (outside_of V.trace V.faults K.Keeper result.vault result.keeper) }

    // Which faults are told, and what else a status says.
    ensures faults_told { TellsFaults (form_of (map string_bytes request.entry.words.now))
        (streams_of (stream_of I.rest I.faults input.old input.new) (stream_of O.written O.faults output.old output.new)
        (host_of F.Folder.tree F.attributes F.Folder.faults host.old host.new) (R.stream chance.old) (R.stream chance.new))
        (outside_of V.trace V.faults K.Keeper storage.vault storage.keeper) (outside_of V.trace V.faults K.Keeper result.vault result.keeper) result.status }
    ensures statuses { StatusSays V.trace V.faults K.Keeper (form_of (map string_bytes request.entry.words.now)) storage.vault storage.keeper result }

    // What is left alone, what is drawn, and which run of a file system it was.
    ensures spares { Spares (form_of (map string_bytes request.entry.words.now))
        (streams_of (stream_of I.rest I.faults input.old input.new) (stream_of O.written O.faults output.old output.new)
        (host_of F.Folder.tree F.attributes F.Folder.faults host.old host.new) (R.stream chance.old) (R.stream chance.new))
        (outside_of V.trace V.faults K.Keeper storage.vault storage.keeper) (outside_of V.trace V.faults K.Keeper result.vault result.keeper) host.old host.new }
    ensures history { HasHistory (map string_bytes request.entry.words.now) request.entry.now
        (streams_of (stream_of I.rest I.faults input.old input.new) (stream_of O.written O.faults output.old output.new)
        (host_of F.Folder.tree F.attributes F.Folder.faults host.old host.new) (R.stream chance.old) (R.stream chance.new))
        (outside_of V.trace V.faults K.Keeper storage.vault storage.keeper) (outside_of V.trace V.faults K.Keeper result.vault result.keeper) result.status }
{
    let Request { words, now } = request;
    let Storage { vault, keeper } = storage;
    match read_form(alloc, words) {
        Err(Memory) => Ended {
            status: Status::Memory,
            vault,
            keeper,
        },
        Ok(None) => Ended {
            status: Status::Usage,
            vault,
            keeper,
        },
        Ok(Some(form)) => {
            let asked = FormRequest { form, words, now };
            let storage = Storage { vault, keeper };
            run_form(alloc, asked, input, output, storage, chance, host)
        }
    }
}

/// What the words ask for, the words themselves, and the moment.
#[derive(Drop)]
struct FormRequest<'a> {
    form: Form,
    words: &'a [String],
    now: Moment,
}

/// Runs what the words ask for.
fn run_form<I: Source, O: Sink, V: Vault + Listing, K: Keeper, R: Rng, F: Attributed>(
    alloc: Global,
    asked: FormRequest<'_>,
    input: &mut I,
    output: &mut O,
    storage: Storage<V, K>,
    chance: &mut R,
    host: &mut F,
) -> Ended<V, K>
    requires { IsModest asked.form }
    ensures did { Did V.trace V.faults V.names K.Keeper (map string_bytes asked.entry.words.now) asked.entry.now
        (streams_of (stream_of I.rest I.faults input.old input.new) (stream_of O.written O.faults output.old output.new)
        (host_of F.Folder.tree F.attributes F.Folder.faults host.old host.new) (R.stream chance.old) (R.stream chance.new))
        storage.vault storage.keeper result (Some asked.entry.form) }
    ensures caused { IsCaused (outside_of V.trace V.faults K.Keeper storage.vault storage.keeper)
        (outside_of V.trace V.faults K.Keeper result.vault result.keeper) result.status asked.entry.form }
    ensures drawn { seals (Some asked.entry.form) ≡ true → DrawsAs (is_migration (Some asked.entry.form)) (R.stream chance.old) (R.stream chance.new)
        (outside_of V.trace V.faults K.Keeper storage.vault storage.keeper) (outside_of V.trace V.faults K.Keeper result.vault result.keeper) }
    ensures undrawn { draws (Some asked.entry.form) ≡ false → R.stream chance.new ≡ R.stream chance.old }
    ensures unhosted { copies (Some asked.entry.form) ≡ false → host.new ≡ host.old }
    ensures grows { NoneFalls (streams_of (stream_of I.rest I.faults input.old input.new)
        (stream_of O.written O.faults output.old output.new)
        (host_of F.Folder.tree F.attributes F.Folder.faults host.old host.new) (R.stream chance.old) (R.stream chance.new)) }
{
    let FormRequest { form, words, now } = asked;
    match form {
        Form::Trial => {
            let Storage { vault, keeper } = storage;
            Ended {
                status: try_lines(alloc, now, input, output),
                vault,
                keeper,
            }
        }
        Form::TrialGenerate(count) => {
            let Storage { vault, keeper } = storage;
            Ended {
                status: try_generated(alloc, now, count, output),
                vault,
                keeper,
            }
        }
        Form::Create(CreateOptions { params, block_size }) => run_create(
            alloc, &params, block_size, input, output, storage, chance,
        ),
        Form::Info => run_info(alloc, input, output, storage),
        Form::Passwd => run_passwd(alloc, input, output, storage, chance),
        Form::Migrate => run_migrate(alloc, input, output, storage, chance),
        Form::Shell => {
            let asks = ShellLines { now };
            run_session(alloc, asks, input, output, storage, chance, host)
        }
        Form::Generate(count) => {
            let asks = GeneratedCommands { count, now };
            run_session(alloc, asks, input, output, storage, chance, host)
        }
        Form::Command => {
            let request = Request { words, now };
            run_line(alloc, request, input, output, storage, chance, host)
        }
        Form::Import(path) => {
            let asks = Import { path, now };
            run_session(alloc, asks, input, output, storage, chance, host)
        }
        Form::Export(path) => {
            let asks = Export { path, now };
            run_session(alloc, asks, input, output, storage, chance, host)
        }
        Form::ImportTimes(path) => {
            let asks = ImportTimes { path, now };
            run_session(alloc, asks, input, output, storage, chance, host)
        }
        Form::ExportTimes(path) => {
            let asks = ExportTimes { path, now };
            run_session(alloc, asks, input, output, storage, chance, host)
        }
        Form::Put(path) => {
            let asks = Put { path, now };
            run_session(alloc, asks, input, output, storage, chance, host)
        }
        Form::Get(path) => {
            let asks = Get { path, now };
            run_session(alloc, asks, input, output, storage, chance, host)
        }
        Form::Check => run_check(alloc, input, output, storage),
        Form::Survey => run_survey(alloc, input, output, storage),
        Form::Look => look(alloc, Request { words, now }, input, output, storage),
    }
}

/// A session of the one line that the words are.
#[tactic(auto, using(crate::proofs::Drawn::undone))]
fn run_line<I: Source, O: Sink, V: Vault, K: Keeper, R: Rng, F: Attributed>(
    alloc: Global,
    request: Request<'_>,
    input: &mut I,
    output: &mut O,
    storage: Storage<V, K>,
    chance: &mut R,
    host: &mut F,
) -> Ended<V, K>
    ensures session { Session V.trace V.faults K.Keeper
        (ComesCommand request.entry.now (joined (map string_bytes request.entry.words.now)) (stream_of I.rest I.faults input.old input.new)
        (stream_of O.written O.faults output.old output.new))
        (stream_of I.rest I.faults input.old input.new) (stream_of O.written O.faults output.old output.new)
        storage.vault storage.keeper result }
    ensures drawn { DrawsVectors (R.stream chance.old) (R.stream chance.new)
        (outside_of V.trace V.faults K.Keeper storage.vault storage.keeper) (outside_of V.trace V.faults K.Keeper result.vault result.keeper) }
    ensures unhosted { host.new ≡ host.old }
    ensures input_grows { I.faults input.old ≤ I.faults input.new }
    ensures output_grows { O.faults output.old ≤ O.faults output.new }
{
    match joined(alloc, request.words) {
        Ok(line) => {
            let asks = SingleLine {
                line,
                now: request.now,
            };
            run_session(alloc, asks, input, output, storage, chance, host)
        }
        Err(Memory) => {
            let Storage { vault, keeper } = storage;
            Ended {
                status: Status::Memory,
                vault,
                keeper,
            }
        }
    }
}

/// A look at what the words behind the first say, as one line.
#[tactic(auto, using(crate::proofs::Looks::unlooked))]
fn look<I: Source, O: Sink, V: Vault, K: Keeper>(
    alloc: Global,
    request: Request<'_>,
    input: &mut I,
    output: &mut O,
    storage: Storage<V, K>,
) -> Ended<V, K>
    ensures ran { RanLook V.trace V.faults request.entry.now (joined (words_behind (map string_bytes request.entry.words.now)))
        (stream_of I.rest I.faults input.old input.new) (stream_of O.written O.faults output.old output.new) storage.vault storage.keeper result }
    ensures looked { IsLookedRun (outside_of V.trace V.faults K.Keeper storage.vault storage.keeper)
        (outside_of V.trace V.faults K.Keeper result.vault result.keeper) }
    ensures causes { HasCauses (outside_of V.trace V.faults K.Keeper storage.vault storage.keeper)
        (outside_of V.trace V.faults K.Keeper result.vault result.keeper) result.status }
    ensures keeper { result.keeper ≡ storage.keeper }
    ensures input_grows { I.faults input.old ≤ I.faults input.new }
    ensures output_grows { O.faults output.old ≤ O.faults output.new }
{
    match joined_behind(alloc, request.words) {
        Ok(line) => run_look(alloc, &line, request.now, input, output, storage),
        Err(Memory) => {
            let Storage { vault, keeper } = storage;
            Ended {
                status: Status::Memory,
                vault,
                keeper,
            }
        }
    }
}

/// The line that the words behind the first are.
fn joined_behind(alloc: Global, words: &[String]) -> Result<Vec<u8>, Memory>
    ensures { IfOk result (λ line. line.items ≡ joined (words_behind (map string_bytes words.now))) }
{
    match words {
        [_, behind @ ..] => joined(alloc, behind),
        [] => Ok(Vec::new(alloc)),
    }
}
