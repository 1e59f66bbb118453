// Rows that come, go and change in their directories.
ghost use Rattle.std.specs.Prelude.{◌≡◌, ◌≤◌, [], ◌∷◌, false, IfOk, IfSome, IfNone, OnOk, OnErr, None, Some};
ghost use Rattle.std.specs.Option.{option_map};
ghost use Rattle.std.specs.FinMap as tree;
ghost use Rattle.fs_model.specs.declared.limits.TheConstants.{MAX_ENTRIES};
ghost use Rattle.fs_model.specs.Tree.{upward, parent, is_root, directory_size, entry_size};
ghost use Rattle.plain_rows.specs.Rows.{tree_of};
ghost use Rattle.plain_rows.specs.Formed.{IsOrdered};
ghost use Rattle.plain_rows.specs.Places.{IsRowAt, IsTable};

use crate::find::{find_folder, find_item};
use crate::folder::{add_item, name_size, set_item, take_item};
use crate::moved::append;
use crate::rows::{Folder, Item};
use block_id::Memory;
use fs_model::{Attr, Name, Path};
use std::alloc::Global;

/// Where a path's row stands: its directory and its place there.
pub fn place_of(folders: &[Box<Folder>], names: &[Name]) -> Option<(usize, usize)>
    requires ordered { IsOrdered folders.now }
    requires named { is_root (upward names.now) ≡ false }
    ensures found { IfSome result (λ at. IsRowAt folders.now (upward names.now) at.0 at.1) }
    ensures absent { IfNone result (tree.get (tree_of folders.now) (upward names.now) ≡ None) }
{
    if names.is_empty() {
        return None;
    }
    let last = names.len() - 1;
    let Ok(f) = find_folder(folders, &names[..last]) else {
        return None;
    };
    match find_item(&folders[f].items, &names[last]) {
        Ok(i) => Some((f, i)),
        Err(_) => None,
    }
}

/// A new row.
pub fn insert_row(
    folders: &mut Vec<Box<Folder>>,
    names: &[Name],
    attr: Attr,
    bytes: Vec<u8>,
) -> Result<(), Memory>
    requires ordered { IsOrdered folders.old.items }
    requires named { is_root (upward names.now) ≡ false }
    requires absent { tree.get (tree_of folders.old.items) (upward names.now) ≡ None }
    requires room { directory_size (tree_of folders.old.items) (parent (upward names.now)) ≤ MAX_ENTRIES }
    ensures ok { OnOk result (IsTable folders.new.items (tree.insert (tree_of folders.old.items) (upward names.now) (record { attr = attr; bytes = bytes.items }))) }
    ensures err { OnErr result (IsTable folders.new.items (tree_of folders.old.items)) }
{
    if names.is_empty() {
        unreachable!();
    }
    let last = names.len() - 1;
    let alloc = *folders.allocator();
    let name = names[last].try_clone()?;
    let item = Box::new(alloc, Item { name, attr, bytes })?;
    match find_folder(folders, &names[..last]) {
        Ok(f) => add_item(&mut folders[f], item),
        Err(place) => {
            let folder = folder_of(alloc, &names[..last], item)?;
            folders.insert(place, folder)?;
            Ok(())
        }
    }
}

/// The path of these names.
fn path_of(alloc: Global, names: &[Name]) -> Result<Path, Memory>
    ensures { IfOk result (λ path. path ≡ names.now) }
{
    let mut path = Path::root(alloc);
    append(&mut path, names)?;
    Ok(path)
}

/// A directory of one row.
fn folder_of(alloc: Global, names: &[Name], item: Box<Item>) -> Result<Box<Folder>, Memory>
    ensures path { IfOk result (λ folder. folder.value.path ≡ names.now) }
    ensures items { IfOk result (λ folder. folder.value.items.items ≡ item ∷ []) }
    ensures size { IfOk result (λ folder. folder.value.size ≡ entry_size item.value.name) }
{
    let path = path_of(alloc, names)?;
    let size = name_size(&item.name);
    let mut items = Vec::new(alloc);
    items.push(item)?;
    Ok(Box::new(alloc, Folder { path, items, size })?)
}

/// A row goes. Its bytes are the result.
pub fn remove_row(folders: &mut Vec<Box<Folder>>, names: &[Name], at: (usize, usize)) -> Vec<u8>
    requires ordered { IsOrdered folders.old.items }
    requires named { is_root (upward names.now) ≡ false }
    requires at { IsRowAt folders.old.items (upward names.now) at.0 at.1 }
    ensures bytes { option_map (λ row. row.bytes) (tree.get (tree_of folders.old.items) (upward names.now)) ≡ Some result.items }
    ensures table { IsTable folders.new.items (tree.remove (tree_of folders.old.items) (upward names.now)) }
{
    let (f, i) = at;
    let (item, none) = take_item(&mut folders[f], i);
    if none {
        folders.remove(f);
    }
    let Item {
        name: _,
        attr: _,
        bytes,
    } = Box::into_inner(item);
    bytes
}

/// Another row at the path. The bytes that stood there are the result.
pub fn set_row(
    folders: &mut Vec<Box<Folder>>,
    names: &[Name],
    at: (usize, usize),
    attr: Attr,
    bytes: Vec<u8>,
) -> Vec<u8>
    requires ordered { IsOrdered folders.old.items }
    requires named { is_root (upward names.now) ≡ false }
    requires at { IsRowAt folders.old.items (upward names.now) at.0 at.1 }
    ensures bytes { option_map (λ row. row.bytes) (tree.get (tree_of folders.old.items) (upward names.now)) ≡ Some result.items }
    ensures table { IsTable folders.new.items (tree.insert (tree_of folders.old.items) (upward names.now) (record { attr = attr; bytes = bytes.items })) }
{
    let (f, i) = at;
    set_item(&mut folders[f], i, attr, bytes)
}
