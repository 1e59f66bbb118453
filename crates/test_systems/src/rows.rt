// Runs over one system, one after another, and rows of text that say them.
ghost use Rattle.std.specs.Prelude.{◌≡◌, ◌&&◌};
ghost use Rattle.std.specs.Str.{bytes_eq};
ghost use Rattle.run_status.specs.Statuses.{sentence_of};

use crate::random::ZEROS;
use crate::system::{Run, System, expect, new_system, nothing, outcome_beside, plain, script};
use memory_host_folder::MemoryFolder;
use memory_host_folder::host_attributes::Attributed;
use run_status::Status;
use std::alloc::Global;
use std::mem;
use std::test::Fail;

/// What a row says: the words, the input, how the run ends, and what it writes.
#[derive(Clone, Copy)]
struct Row<'a> {
    words: &'a str,
    input: &'a str,
    sentence: &'a str,
    text: &'a str,
}

/// The parts of a row.
fn parts(row: &str) -> Option<Row<'_>> {
    let (words, rest) = row.split_once('\n')?;
    let (input, end) = rest.split_once('=')?;
    let (sentence, text) = end.split_once('\n')?;
    Some(Row {
        words,
        input,
        sentence: sentence.strip_prefix(' ').unwrap_or(sentence),
        text,
    })
}

/// The input of a row: its lines, where a password that stands alone has no end of line.
fn input_of<'a>(lines: &'a str) -> &'a str {
    match lines.split_once('\n') {
        Some((password, "")) => password,
        _ => lines,
    }
}

/// What a run writes and how it ends. What it gives back stands in the system's place.
fn told<F: Attributed>(
    alloc: Global,
    system: &mut System,
    case: &Run<'_>,
    host: &mut F,
) -> Result<(Vec<u8>, Status), Fail> {
    let mut zeros = ZEROS;
    let before = mem::replace(system, nothing(alloc));
    let (written, ended, after) = outcome_beside(alloc, before, case, host, &mut zeros)?;
    *system = after;
    Ok((written, ended))
}

/// Whether a run wrote this text and ended with this sentence.
fn is_as_said(written: &[u8], ended: Status, text: &str, sentence: &str) -> bool
    ensures { result ≡ (bytes_eq (sentence_of ended) sentence.now && bytes_eq written.now text.now) }
{
    ended.text() == sentence && written == text.as_bytes()
}

/// How a run came out that should have come out as this row says.
fn otherwise(row: &str, written: &[u8], ended: Status) -> Fail {
    let shown = str::from_utf8(written).unwrap_or("bytes");
    Fail::new(format_args!("{:?} after {shown:?} and not so: {row}", ended.text()))
}

/// The run of a row, which has to come out as it says.
fn play_row<F: Attributed>(
    alloc: Global,
    system: &mut System,
    host: &mut F,
    row: &str,
) -> Result<(), Fail> {
    let parts = parts(row).ok_or("a row has words, input, an end and a text")?;
    let words: Vec<&str> = parts.words.split('|').collect(alloc)?;
    let case = plain(&words, input_of(parts.input));
    let (written, ended) = told(alloc, system, &case, host)?;
    if is_as_said(&written, ended, parts.text, parts.sentence) {
        Ok(())
    } else {
        Err(otherwise(row, &written, ended))
    }
}

/// The runs that the rows say, one after another, beside this folder. A row begins with `> `. It has the words, parted by `|`,
/// then the lines of the input, then `=` and the sentence on how the run ends, and then what it writes:
///
///     > shell
///     pw
///     mkdir /a
///     ls /
///     =
///     ok
///     list 1
///     d a
///     > info
///     px
///     = configuration does not open
pub fn play_beside<F: Attributed>(
    alloc: Global,
    system: &mut System,
    host: &mut F,
    rows: &str,
) -> Result<(), Fail> {
    for row in rows.split("> ") {
        if !row.is_empty() {
            play_row(alloc, system, host, row)?;
        }
    }
    Ok(())
}

/// The same beside an empty folder.
pub fn play(alloc: Global, system: &mut System, rows: &str) -> Result<(), Fail> {
    play_beside(alloc, system, &mut MemoryFolder::new(alloc), rows)
}

/// The same over a new file system.
pub fn play_anew(alloc: Global, rows: &str) -> Result<(), Fail> {
    play(alloc, &mut new_system(alloc)?, rows)
}

/// A run that has to write this text and end with this status. What it gives back stands in the system's place.
pub fn take(
    alloc: Global,
    system: &mut System,
    case: &Run<'_>,
    text: &str,
    status: Status,
) -> Result<(), Fail> {
    let before = mem::replace(system, nothing(alloc));
    *system = expect(alloc, before, case, text, status)?;
    Ok(())
}

/// A session of these lines, which has to write this text and end with this status.
pub fn ask(
    alloc: Global,
    system: &mut System,
    lines: &str,
    text: &str,
    status: Status,
) -> Result<(), Fail> {
    let input = script(alloc, lines)?;
    take(alloc, system, &plain(&["shell"], &input), text, status)
}
