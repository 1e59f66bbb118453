// The file of a story, and how it is put into a tree and got from there.
use crate::endings::{put_end, stop_word};
use crate::inputs::{bytes_of, list_of, number};
use crate::plain_asker::PlainAsker;
use crate::trees::path_of;
use copy_file::copy_row::Stop;
use copy_file::line_io::LineReader;
use copy_file::{get_file, put_file};
use fs_model::{Command, Path, Reply};
use memory_outside::{MemorySink, MemorySource};
use std::alloc::Global;
use std::test::Fail;
use tree_copy::copy_laws::Totals;

/// Puts what follows the first line of the input.
fn put_behind_line(
    alloc: Global,
    asker: &mut PlainAsker,
    input: &mut MemorySource,
    to: &Path,
) -> Result<Totals, Stop> {
    let Ok(mut reader) = LineReader::new(alloc) else {
        return Err(Stop::Memory);
    };
    match reader.next_line(input) {
        Ok(_) => put_file(alloc, &mut reader, input, asker, to),
        Err(_) => Err(Stop::Memory),
    }
}

/// A line and these bytes. A call gives 50,000 bytes, and the one of this number fails.
fn input_of(alloc: Global, text: &str, fails: &str) -> Result<MemorySource, Fail> {
    let mut script = b"a password\n".to_vec(alloc)?;
    script.extend_from_slice(&bytes_of(alloc, text)?)?;
    Ok(MemorySource::new(script, 50_000, list_of(alloc, fails)?))
}

/// A put of these bytes, from an input whose call of this number fails, ends so.
fn puts(
    alloc: Global,
    asker: &mut PlainAsker,
    text: &str,
    fails: &str,
    wanted: &str,
) -> Result<bool, Fail> {
    let to = path_of(alloc, "/f")?;
    let mut input = input_of(alloc, text, fails)?;
    let end = put_end(alloc, put_behind_line(alloc, asker, &mut input, &to))?;
    Ok(end.as_str() == wanted)
}

/// How a get of the file ends.
fn got(
    alloc: Global,
    asker: &mut PlainAsker,
    from: &Path,
    output: &mut MemorySink,
) -> &'static str {
    match get_file(alloc, asker, from, output) {
        Ok(()) => "done",
        Err(stop) => stop_word(stop),
    }
}

/// A get to an output with room for so many bytes writes these, and ends so.
fn gets(
    alloc: Global,
    asker: &mut PlainAsker,
    room: usize,
    text: &str,
    wanted: &str,
) -> Result<bool, Fail> {
    let from = path_of(alloc, "/f")?;
    let bytes = bytes_of(alloc, text)?;
    let mut output = MemorySink::new(alloc, 60_000, room, Vec::new(alloc))?;
    let end = got(alloc, asker, &from, &mut output);
    Ok(end == wanted && output.written() == bytes.as_slice())
}

/// Whether the file has so many bytes.
fn has_size(alloc: Global, asker: &mut PlainAsker, wanted: usize) -> Result<bool, Fail> {
    let command = Command::Stat(path_of(alloc, "/f")?);
    match asker.tree.step(asker.now, &command) {
        Ok(Reply::Info(_, size)) => Ok(size == wanted as u64),
        _ => Ok(false),
    }
}

/// Puts or gets the file, or looks at it. Whether all is as it is said.
pub fn on_file(
    alloc: Global,
    asker: &mut PlainAsker,
    word: &str,
    rest: &str,
) -> Result<bool, Fail> {
    let (first, more) = rest.split_once(' ').unwrap_or((rest, ""));
    let (second, end) = more.split_once(' ').unwrap_or((more, ""));
    match word {
        "put" => puts(alloc, asker, first, "", more),
        "put-failing" => puts(alloc, asker, second, first, end),
        "get" => gets(alloc, asker, number(first)?, second, end),
        "size" => has_size(alloc, asker, number(first)?),
        _ => Ok(false),
    }
}
