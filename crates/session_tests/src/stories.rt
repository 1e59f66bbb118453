// Stories: runs one after another, with what is done to the files and the record between them.

use crate::inputs::spread;
use crate::orders::obey;
use crate::tale::{Manner, Tale, begun};
use std::alloc::{AllocError, Global};
use std::mem;
use std::test::Fail;
use test_systems::{Run, Status, System, ZEROS, nothing, outcome};

/// What a step says of a run: the words, the input, how it ends, and what it writes.
#[derive(Clone, Copy)]
pub struct Row<'a> {
    pub words: &'a str,
    pub input: &'a str,
    pub sentence: &'a str,
    pub text: &'a str,
}

/// The parts of such a step.
fn parts(step: &str) -> Option<Row<'_>> {
    let (words, rest) = step.split_once('\n')?;
    let (input, end) = rest.split_once('=')?;
    let (sentence, text) = end.split_once('\n')?;
    Some(Row {
        words,
        input,
        sentence: sentence.strip_prefix(' ').unwrap_or(sentence),
        text,
    })
}

/// The input: its lines, where a password that stands alone has no end of line unless the input is whole.
fn input_of<'a>(lines: &'a str, whole: bool) -> &'a str {
    match lines.split_once('\n') {
        Some((password, "")) if !whole => password,
        _ => lines,
    }
}

/// The words of a line, parted by `|`, or none.
fn words_of<'a>(alloc: Global, line: &'a str) -> Result<Vec<&'a str>, AllocError> {
    if line == "(no words)" {
        return Ok(Vec::new(alloc));
    }
    let words: Vec<&str> = line.split('|').collect(alloc)?;
    Ok(words)
}

/// A run in this manner.
fn run_in<'a>(manner: &'a Manner, words: &'a [&'a str], input: &'a str) -> Run<'a> {
    Run {
        words,
        input: input.as_bytes(),
        piece: manner.piece,
        secs: manner.secs,
        nanos: manner.nanos,
        reads: &manner.reads,
        writes: &manner.writes,
    }
}

/// What a run writes and how it ends. What it gives back stands in the system's place.
fn told(
    alloc: Global,
    system: &mut System,
    case: &Run<'_>,
) -> Result<(Vec<u8>, Status), AllocError> {
    let mut zeros = ZEROS;
    let before = mem::replace(system, nothing(alloc));
    let (written, ended, after) = outcome(alloc, before, case, &mut zeros)?;
    *system = after;
    Ok((written, ended))
}

/// Whether a run wrote and ended so.
fn is_as_said(written: &[u8], ended: Status, row: &Row<'_>) -> bool {
    ended.text() == row.sentence && written == row.text.as_bytes()
}

/// How a run came out that should have come out so.
fn otherwise(written: &[u8], ended: Status, row: &Row<'_>) -> Fail {
    let shown = str::from_utf8(written).unwrap_or("bytes");
    Fail::new(format_args!(
        "{}: {:?} after {shown:?} and not {:?} after {:?}",
        row.words,
        ended.text(),
        row.sentence,
        row.text
    ))
}

/// The run of these words on this input.
fn play_words(
    alloc: Global,
    tale: &mut Tale,
    words: &[&str],
    input: &str,
) -> Result<(Vec<u8>, Status), AllocError> {
    let manner = tale.manner;
    told(alloc, &mut tale.system, &run_in(&manner, words, input))
}

/// The run of this row, which has to come out as it says.
pub fn play(alloc: Global, tale: &mut Tale, row: &Row<'_>) -> Result<(), Fail> {
    let words = words_of(alloc, row.words)?;
    let input = spread(alloc, input_of(row.input, tale.manner.whole))?;
    let (written, ended) = play_words(alloc, tale, &words, &input)?;
    if is_as_said(&written, ended, row) {
        Ok(())
    } else {
        Err(otherwise(&written, ended, row))
    }
}

/// One step: an order, or a run.
fn take_step(alloc: Global, tale: &mut Tale, step: &str) -> Result<(), Fail> {
    match step.strip_prefix('!') {
        Some(order) => obey(alloc, tale, order.trim_end()),
        None => {
            let row = parts(step).ok_or("a run has words, input, an end and a text")?;
            play(alloc, tale, &row)
        }
    }
}

/// The steps of this text, one after another.
fn go_on(alloc: Global, tale: &mut Tale, steps: &str) -> Result<(), Fail> {
    for step in steps.split("> ") {
        if !step.is_empty() {
            take_step(alloc, tale, step)?;
        }
    }
    Ok(())
}

/// A story over a new file system, with these steps before its own.
fn is_so(alloc: Global, first: &str, story: &str) -> Result<(), Fail> {
    let (_, steps) = story.split_once('\n').ok_or("a story has a title")?;
    let mut tale = begun(alloc)?;
    go_on(alloc, &mut tale, first)?;
    go_on(alloc, &mut tale, steps)
}

/// The first line of a story.
fn title<'a>(story: &'a str) -> &'a str {
    match story.split_once('\n') {
        Some((title, _)) => title,
        None => story,
    }
}

/// A story, whose title is printed where it isn't so.
fn told_or_named(rt: &HostRuntime, first: &str, story: &str) -> Result<(), Fail> {
    let found = is_so(rt.alloc(), first, story);
    if found.is_err() {
        let _ = println!(rt; "at {}", title(story));
    }
    found
}

/// Tells these stories, each over a new file system, with these steps before its own. A story begins with `# ` and its title,
/// a step with `> `. A step is a run, as a row of `test_systems` says it, or after `!` an order (`orders`):
///
///     # a directory that is made is there later
///     > shell
///     pw
///     mkdir /a
///     =
///     ok
///     > !mend
///     > ls|/
///     px
///     = configuration does not open
pub fn tell(rt: &HostRuntime, first: &str, stories: &str) -> Result<(), Fail> {
    for story in stories.split("# ") {
        if !story.is_empty() {
            told_or_named(rt, first, story)?;
        }
    }
    Ok(())
}
