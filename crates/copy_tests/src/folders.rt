// What a story makes in a folder, and looks for there.
use crate::inputs::{bytes_of, list_of, number, parted};
use memory_host_folder::{MemoryFolder, Row, appends, fills_small, has_rows, holds, leads, makes};
use std::alloc::Global;
use std::test::Fail;

/// Makes the directories of this path, each in the one before.
fn makes_each(alloc: Global, folder: &mut MemoryFolder, path: &str) -> Result<bool, Fail> {
    let names = parted(alloc, path, '/')?;
    for i in 1..=names.len() {
        if !makes(alloc, folder, names.get(..i).unwrap_or(&[]), Row::Folder) {
            return Ok(false);
        }
    }
    Ok(true)
}

/// Makes a file with these bytes.
fn makes_file(
    alloc: Global,
    folder: &mut MemoryFolder,
    names: &[&str],
    text: &str,
) -> Result<bool, Fail> {
    let bytes = bytes_of(alloc, text)?;
    Ok(makes(alloc, folder, names, Row::File) && appends(alloc, folder, names, &bytes))
}

/// A file has these bytes from this place on, and no more: `1 b`.
fn has_bytes(
    alloc: Global,
    folder: &mut MemoryFolder,
    names: &[&str],
    what: &str,
) -> Result<bool, Fail> {
    let (from, text) = what.split_once(' ').ok_or("a place and bytes")?;
    let from = number(from)? as u64;
    let bytes = bytes_of(alloc, text)?;
    Ok(holds(alloc, folder, names, from, &bytes))
}

/// A folder has these rows.
fn lists(
    alloc: Global,
    folder: &mut MemoryFolder,
    names: &[&str],
    rows: &str,
) -> Result<bool, Fail> {
    let rows = parted(alloc, rows, ' ')?;
    Ok(has_rows(alloc, folder, names, &rows))
}

/// Begins with an empty folder, or with the small one: the directory `d` with the file `f` of `ab`, and the link `l` to it.
fn begin(alloc: Global, folder: &mut MemoryFolder, small: bool) -> bool {
    *folder = MemoryFolder::new(alloc);
    !small || fills_small(alloc, folder)
}

/// Makes the call of this number fail, from here on.
fn fail_call(alloc: Global, folder: &mut MemoryFolder, rest: &str) -> Result<bool, Fail> {
    folder.fail_calls(list_of(alloc, rest)?);
    Ok(true)
}

/// Changes a folder, or looks at it. Whether all is as it is said.
pub fn on_folder(
    alloc: Global,
    folder: &mut MemoryFolder,
    word: &str,
    rest: &str,
) -> Result<bool, Fail> {
    let (path, what) = rest.split_once(' ').unwrap_or((rest, ""));
    let names = parted(alloc, path, '/')?;
    match word {
        "empty" | "small" => Ok(begin(alloc, folder, word == "small")),
        "call-fails" => fail_call(alloc, folder, rest),
        "directories" => makes_each(alloc, folder, rest),
        "file" => makes_file(alloc, folder, &names, what),
        "rows" => lists(alloc, folder, &names, what),
        "holds" => has_bytes(alloc, folder, &names, what),
        "leads" => Ok(leads(alloc, folder, &names, what)),
        _ => Ok(false),
    }
}
