// Directories at other paths, in order again.
ghost use Rattle.std.specs.Prelude.{◌≡◌, ℕ, ◌+◌, ◌<◌, ◌≤◌, ◌++◌, List, [], ◌∷◌, T, map, vec_len, vec_capacity, OnOk, OnErr, None};
ghost use Rattle.std.specs.FinMap.{find, is_sorted, get};
ghost use Rattle.std.specs.FinMap.Entries.{put};
ghost use Rattle.fs_model.specs.Tree.{upward, path_cmp};
ghost use Rattle.fs_model.specs.Tree as model;
ghost use Rattle.plain_rows.specs.Rows.{folder_entry, names_of, tree_of};
ghost use Rattle.plain_rows.specs.Formed.{IsFull, AllFull, IsOrdered};
ghost use Rattle.plain_rows.specs.Moves.{paired, IsBelowMoved};

use crate::find::find_folder;
use crate::moved::moved_paths;
use crate::rows::Folder;
use block_id::Memory;
use fs_model::{Name, Path};

/// Puts the directory in its place, or over that of the same path. There is room for it.
fn put_folder(folders: &mut Vec<Box<Folder>>, folder: Box<Folder>)
    requires sorted { T (is_sorted path_cmp (map folder_entry folders.old.items)) }
    requires full { AllFull folders.old.items }
    requires this { IsFull folder.value }
    requires room { vec_len folders.old < vec_capacity folders.old }
    ensures entries { map folder_entry folders.new.items ≡ put path_cmp (upward folder.value.path) (names_of folder.value) (map folder_entry folders.old.items) }
    ensures full { AllFull folders.new.items }
    ensures len { vec_len folders.new ≤ vec_len folders.old + 1 }
    ensures capacity { vec_capacity folders.old ≤ vec_capacity folders.new }
{
    match find_folder(folders, folder.path.names()) {
        Ok(f) => folders[f] = folder,
        Err(place) => match folders.insert(place, folder) {
            Ok(()) => {}
            Err(_) => unreachable!(),
        },
    }
}

/// The directory at another path.
fn with_path(mut folder: Box<Folder>, path: Path) -> Box<Folder>
    ensures path { result.value.path ≡ path }
    ensures items { result.value.items ≡ folder.value.items }
    ensures size { result.value.size ≡ folder.value.size }
{
    folder.path = path;
    folder
}

/// The directories at these paths, put in order in `next`, which is empty and has room for them.
fn rebuild(folders: &mut Vec<Box<Folder>>, mut paths: Vec<Path>, mut next: Vec<Box<Folder>>)
    requires full { AllFull folders.old.items }
    requires same { vec_len paths ≡ vec_len folders.old }
    requires empty { next.items ≡ [] }
    requires room { vec_len folders.old ≤ vec_capacity next }
    ensures found { (r : model.Path) → find path_cmp r (map folder_entry folders.new.items) ≡ find path_cmp r (paired paths.items folders.old.items) }
    ensures sorted { T (is_sorted path_cmp (map folder_entry folders.new.items)) }
    ensures full { AllFull folders.new.items }
{
    while let Some(folder) = folders.pop() {
        let Some(path) = paths.pop() else {
            unreachable!();
        };
        put_folder(&mut next, with_path(folder, path));
    }
    *folders = next;
}

/// All that is below `from` moves below `to`, where nothing is. Memory is taken first.
pub fn rename_below(
    folders: &mut Vec<Box<Folder>>,
    from: &[Name],
    to: &[Name],
) -> Result<(), Memory>
    requires ordered { IsOrdered folders.old.items }
    requires bare { (s : model.Path) (n : List ℕ) → get (tree_of folders.old.items) (n ∷ (s ++ upward to.now)) ≡ None }
    ensures ordered { IsOrdered folders.new.items }
    ensures ok { OnOk result (IsBelowMoved (tree_of folders.old.items) (tree_of folders.new.items) (upward from.now) (upward to.now)) }
    ensures err { OnErr result (tree_of folders.new.items ≡ tree_of folders.old.items) }
{
    let alloc = *folders.allocator();
    let paths = moved_paths(alloc, folders, from, to)?;
    let next = Vec::with_capacity(alloc, folders.len())?;
    rebuild(folders, paths, next);
    Ok(())
}
