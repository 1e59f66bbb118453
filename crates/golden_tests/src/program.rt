// The program's own run over two real folders, from words and lines to what it writes.

use call_log::{ByteLog, CallLog};
use fs_model::Moment;
use program_run::program_inputs::Inputs;
use program_run::program_inputs::real_outside::{FolderKeeper, FolderVault};
use program_run::real_outside::{ReaderSource, WriterSink};
use program_run::run_program;
use rand_pcg::Pcg32;
use run_status::{Status, Storage};
use std::alloc::{AllocError, Global};
use std::fs::{self, File};
use std::io::ErrorKind;
use std::path::PathBuf;
use std::test::Fail;
use std::{env, process};
use test_systems::memory_host_folder::MemoryFolder;

/// What a row says: the words, the input, how the run ends, and what it writes.
#[derive(Drop)]
struct Row<'a> {
    words: &'a str,
    input: &'a str,
    sentence: &'a str,
    text: &'a str,
}

/// The parts of a row: its words, its input, behind `=` how it ends, and what it writes.
fn parts(row: &str) -> Option<Row<'_>> {
    let (words, rest) = row.split_once('\n')?;
    let (input, end) = rest.split_once('=')?;
    let (sentence, text) = end.split_once('\n')?;
    Some(Row {
        words,
        input,
        sentence: sentence.trim_start(),
        text,
    })
}

/// A path for this test alone, at which an empty folder is.
fn fresh_folder(rt: &HostRuntime, test: &str) -> Result<PathBuf, Fail> {
    let id = process::id(rt.process());
    let name = format!(in rt.alloc(); "golden_tests-{id}-{test}")?;
    let path = env::temp_dir(rt)?.join(rt.alloc(), name.as_str())?;
    match fs::remove_dir_all(rt, path.as_path()) {
        Err(error) if error.kind() != ErrorKind::NotFound => return Err(error.into()),
        _ => {}
    }
    fs::create_dir(rt, path.as_path())?;
    Ok(path)
}

/// The path of what has this name in the folder.
fn text(alloc: Global, folder: &PathBuf, name: &str) -> Result<String, AllocError> {
    String::from_str(alloc, folder.join(alloc, name)?.as_str())
}

/// The words of a row as text of their own.
fn owned(alloc: Global, words: &str) -> Result<Vec<String>, AllocError> {
    let mut all = Vec::new(alloc);
    for word in words.split('|') {
        all.push(String::from_str(alloc, word)?)?;
    }
    Ok(all)
}

/// These words over the folders `blocks` and `state` in this one.
fn inputs(alloc: Global, folder: &PathBuf, words: &str) -> Result<Inputs, Fail> {
    let now = Moment::new(100, 5).ok_or(ErrorKind::InvalidInput)?;
    let blocks = text(alloc, folder, "blocks")?;
    let state = text(alloc, folder, "state")?;
    let words = owned(alloc, words)?;
    Ok(Inputs::new(alloc, blocks, state, words, now, 1)?)
}

/// How the run of these inputs ends, from these lines to this output.
fn ended<'a>(
    alloc: Global,
    inputs: &Inputs,
    lines: &[u8],
    output: &mut WriterSink<File>,
    storage: Storage<FolderVault<'a, HostRuntime>, FolderKeeper<'a, HostRuntime>>,
) -> Status {
    let mut input = ReaderSource::new(lines);
    let mut chance = Pcg32::new(1, 2);
    let mut host = MemoryFolder::new(alloc);
    let ended = run_program(
        alloc,
        inputs,
        &mut input,
        output,
        storage,
        &mut chance,
        &mut host,
    );
    ended.status
}

/// Runs these inputs, and gives how that ended.
fn run_inputs(
    rt: &HostRuntime,
    inputs: &Inputs,
    lines: &str,
    output: File,
) -> Result<Status, Fail> {
    let storage = Storage {
        keeper: inputs.make_keeper(rt, CallLog::new())?,
        vault: inputs.vault(rt, CallLog::new()),
    };
    let mut output = WriterSink::new(output, ByteLog::new());
    Ok(ended(rt.alloc(), inputs, lines.as_bytes(), &mut output, storage))
}

/// Whether a run ended and wrote as the row says: its text stands there whole, or the beginning of it before `..`.
fn is_as_said(ended: Status, written: &str, row: &Row<'_>) -> bool {
    let is_text = match row.text.strip_suffix("..\n") {
        Some(begin) => written.starts_with(begin),
        None => written == row.text,
    };
    is_text && ended.text() == row.sentence
}

/// The run of a row over this folder.
fn play_row(rt: &HostRuntime, folder: &PathBuf, row: &str) -> Result<(), Fail> {
    let parts = parts(row).ok_or("a row has words, input, an end and a text")?;
    let path = folder.join(rt.alloc(), "output")?;
    let inputs = inputs(rt.alloc(), folder, parts.words)?;
    let output = File::create(rt, path.as_path())?;
    let ended = run_inputs(rt, &inputs, parts.input, output)?;
    let written = fs::read_to_string(rt, path.as_path())?;
    if is_as_said(ended, written.as_str(), &parts) {
        Ok(())
    } else {
        Err(Fail::new(format_args!("{:?} after {written:?} and not so: {row}", ended.text())))
    }
}

/// The runs of these rows over this folder, one after another.
fn play_rows(rt: &HostRuntime, folder: &PathBuf, rows: &str) -> Result<(), Fail> {
    for row in rows.split("> ") {
        if !row.is_empty() {
            play_row(rt, folder, row)?;
        }
    }
    Ok(())
}

const SERVED: &str = "> create|--blocksize|128|--scrypt-n|16
pw
=
created ..
> shell
pw
mkdir /a
mkdir /a
ls /
=
ok
error exists
list 1
d a
> ls|/
pw
=
list 1
d a
> ls|/
px
= configuration does not open
";

#[test]
fn serves_the_plain_tree(rt: HostRuntime) -> Result<(), Fail> {
    let folder = fresh_folder(&rt, "served")?;
    play_rows(&rt, &folder, SERVED)?;
    fs::remove_dir_all(&rt, folder.as_path())?;
    Ok(())
}

const UNMADE: &str = "> info
pw
= no local state
";

/// A wrong word for the state folder leaves none behind.
#[test]
fn makes_no_state_folder_but_by_create(rt: HostRuntime) -> Result<(), Fail> {
    let folder = fresh_folder(&rt, "unmade")?;
    play_rows(&rt, &folder, UNMADE)?;
    let state = folder.join(rt.alloc(), "state")?;
    assert!(rt; matches!(fs::exists(&rt, state.as_path()), Ok(false)));
    fs::remove_dir_all(&rt, folder.as_path())?;
    Ok(())
}
