// A tree into which a story copies folders, out of which it does, and what stands in it.
use crate::endings::folder_end;
use crate::inputs::{bytes_of, number, parted};
use crate::plain_asker::PlainAsker;
use fs_model::{Command, Moment, Path, Reply};
use memory_host_folder::host_folder::Folder;
use memory_host_folder::{MemoryFolder, path};
use plain_tree::PlainTree;
use std::alloc::Global;
use std::test::Fail;
use tree_copy::copy_laws::{CopyFail, Totals};
use tree_copy::{export, import};

/// An empty tree, at the moment 100.000000005.
pub fn empty_tree(alloc: Global) -> Result<PlainAsker, Fail> {
    let now = Moment::new(100, 5).ok_or("nanos")?;
    Ok(PlainAsker {
        tree: PlainTree::new(alloc),
        now,
        stops: 0,
    })
}

/// The path of this text.
pub fn path_of(alloc: Global, text: &str) -> Result<Path, Fail> {
    let names = parted(alloc, text, '/')?;
    let path = path(alloc, &names).ok_or("a path")?;
    Ok(path)
}

/// Imports to this path.
fn imported<F: Folder>(
    alloc: Global,
    folder: &mut F,
    asker: &mut PlainAsker,
    to: &Path,
) -> Result<Totals, CopyFail> {
    import(alloc, folder, asker, to)
}

/// Exports what stands below this path.
fn exported<F: Folder>(
    alloc: Global,
    folder: &mut F,
    asker: &mut PlainAsker,
    from: &Path,
) -> Result<Totals, CopyFail> {
    export(alloc, folder, asker, from)
}

/// Whether the file has these bytes from this place on: `0 ab`.
fn reads(alloc: Global, asker: &mut PlainAsker, file: Path, what: &str) -> Result<bool, Fail> {
    let (from, text) = what.split_once(' ').ok_or("a place and bytes")?;
    let from = number(from)? as u64;
    let wanted = bytes_of(alloc, text)?;
    match asker.tree.step(asker.now, &Command::Read(file, from, 100)) {
        Ok(Reply::Content(bytes)) => Ok(bytes.as_slice() == wanted.as_slice()),
        _ => Ok(false),
    }
}

/// Whether a copy ended so.
fn ends(alloc: Global, ended: Result<Totals, CopyFail>, wanted: &str) -> Result<bool, Fail> {
    let end = folder_end(alloc, ended)?;
    if end.as_str() == wanted {
        Ok(true)
    } else {
        Err(Fail::new(format_args!("it ends with {end}")))
    }
}

/// Copies from or to a tree, or looks at it. Whether all is as it is said.
pub fn on_tree(
    alloc: Global,
    folder: &mut MemoryFolder,
    asker: &mut PlainAsker,
    word: &str,
    rest: &str,
) -> Result<bool, Fail> {
    let (text, what) = rest.split_once(' ').unwrap_or((rest, ""));
    let path = path_of(alloc, text)?;
    match word {
        "import" => ends(alloc, imported(alloc, folder, asker, &path), what),
        "export" => ends(alloc, exported(alloc, folder, asker, &path), what),
        "reads" => reads(alloc, asker, path, what),
        _ => Ok(false),
    }
}
