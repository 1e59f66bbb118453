// Paths after a move.
ghost use Rattle.std.specs.Prelude.{◌≡◌, ◌++◌, map, IfOk, OnOk};
ghost use Rattle.fs_model.specs.Tree.{upward};
ghost use Rattle.fs_model.specs.Move as model;

use crate::rows::Folder;
use block_id::Memory;
use fs_model::{Name, Path, has_prefix};
use std::alloc::Global;

/// Puts the names last.
pub fn append(path: &mut Path, names: &[Name]) -> Result<(), Memory>
    ensures { OnOk result (path.new ≡ path.old ++ names.now) }
{
    for name in names {
        path.push(name.try_clone()?)?;
    }
    Ok(())
}

/// The path of the first names and then the others.
fn joined(alloc: Global, first: &[Name], then: &[Name]) -> Result<Path, Memory>
    ensures { IfOk result (λ path. path ≡ first.now ++ then.now) }
{
    let mut path = Path::root(alloc);
    append(&mut path, first)?;
    append(&mut path, then)?;
    Ok(path)
}

/// The path after its prefix `from` is replaced by `to`.
fn moved_path(alloc: Global, path: &Path, from: &[Name], to: &[Name]) -> Result<Path, Memory>
    ensures { IfOk result (λ moved. upward moved ≡ model.moved (upward from.now) (upward to.now) (upward path.now)) }
{
    let names = path.names();
    if has_prefix(names, from) {
        joined(alloc, to, &names[from.len()..])
    } else {
        joined(alloc, &[], names)
    }
}

/// The paths of the directories after that.
pub fn moved_paths(
    alloc: Global,
    folders: &[Box<Folder>],
    from: &[Name],
    to: &[Name],
) -> Result<Vec<Path>, Memory>
    ensures { IfOk result (λ paths. map upward paths.items ≡ map (λ f. model.moved (upward from.now) (upward to.now) (upward f.value.path)) folders.now) }
{
    let mut paths = Vec::new(alloc);
    for folder in folders {
        paths.push(moved_path(alloc, &folder.path, from, to)?)?;
    }
    Ok(paths)
}
