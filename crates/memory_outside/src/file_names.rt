// The names of the files that a directory in memory holds.
ghost use Rattle.std.specs.Prelude.{◌≡◌, fold, IfOk};
ghost use Rattle.outside.specs.View.{list_of};
ghost use Rattle.memory_outside.specs.FileNames.{with_name, file_names, all_names};

use outside::{ByteLine, Change, Pending, file_text};
use std::alloc::{AllocError, Global};
use std::collections::BTreeSet;

/// The names of the files that are there. Of changes of one name the first counts, and a removal is no file.
fn own_names(alloc: Global, files: &[Pending]) -> Result<BTreeSet<ByteLine>, AllocError>
    ensures { IfOk result (λ names. names.keys ≡ file_names (list_of files.now)) }
{
    let mut names = BTreeSet::new(alloc);
    for i in 0..files.len() {
        let file = &files[files.len() - 1 - i];
        let name = file_text(alloc, &file.name)?;
        match &file.change {
            Change::Bytes(_) => {
                names.insert(name)?;
            }
            Change::Removal => {
                names.remove(&name);
            }
        }
    }
    Ok(names)
}

/// The names of the files that are there and the strange ones, by increasing bytes and each once.
pub(crate) fn names(
    alloc: Global,
    files: &[Pending],
    strange: &[ByteLine],
) -> Result<Vec<ByteLine>, AllocError>
    ensures { IfOk result (λ lines. lines.items ≡ all_names (list_of files.now) strange.now) }
{
    let mut names = own_names(alloc, files)?;
    for name in strange {
        names.insert(name.try_clone()?)?;
    }
    let mut lines = Vec::new(alloc);
    for name in names {
        lines.push(name)?;
    }
    Ok(lines)
}
