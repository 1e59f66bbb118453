// Looking at rows.
ghost use Rattle.std.specs.Prelude.{◌≡◌, map, IfOk};
ghost use Rattle.std.specs.Option.{option_map};
ghost use Rattle.std.specs.FinMap.{get, entries};
ghost use Rattle.fs_model.specs.Tree.{upward, children};
ghost use Rattle.fs_model.specs.Tree as model;
ghost use Rattle.fs_model.specs.Step as step;
ghost use Rattle.plain_rows.specs.Rows.{tree_of};
ghost use Rattle.plain_rows.specs.Rows as table;
ghost use Rattle.plain_rows.specs.Formed.{IsOrdered};

use crate::edit::place_of;
use crate::find::find_folder;
use crate::rows::{Folder, Item};
use block_id::Memory;
use fs_model::{Attr, ListRow, Name, root_attr};
use std::alloc::Global;

/// The attributes and the bytes of a path's row.
pub fn row_of<'a>(folders: &'a [Box<Folder>], names: &[Name]) -> Option<(Attr, &'a [u8])>
    requires { IsOrdered folders.now }
    ensures { option_map (λ row. record { attr = row.0; bytes = row.1.now }) result ≡ get (tree_of folders.now) (upward names.now) }
{
    if names.is_empty() {
        return Some((root_attr(), &[]));
    }
    match place_of(folders, names) {
        Some((f, i)) => {
            let item = &folders[f].items[i];
            Some((item.attr, item.bytes.as_slice()))
        }
        None => None,
    }
}

/// The bytes that the entries of a directory take.
pub fn size_of(folders: &[Box<Folder>], names: &[Name]) -> u64
    requires { IsOrdered folders.now }
    ensures { result ≡ model.directory_size (tree_of folders.now) (upward names.now) }
{
    match find_folder(folders, names) {
        Ok(f) => folders[f].size,
        Err(_) => 0,
    }
}

/// The rows of a listing.
pub fn list_rows(
    alloc: Global,
    folders: &[Box<Folder>],
    names: &[Name],
) -> Result<Vec<ListRow>, Memory>
    requires { IsOrdered folders.now }
    ensures { IfOk result (λ rows. rows.items ≡ map step.list_row (entries (children (tree_of folders.now) (upward names.now)))) }
{
    match find_folder(folders, names) {
        Ok(f) => list_items(alloc, &folders[f].items),
        Err(_) => Ok(Vec::new(alloc)),
    }
}

/// Kind and name of each row.
fn list_items(alloc: Global, items: &[Box<Item>]) -> Result<Vec<ListRow>, Memory>
    ensures { IfOk result (λ rows. rows.items ≡ map step.list_row (map table.item_entry items.now)) }
{
    let mut rows = Vec::new(alloc);
    for item in items {
        let name = item.name.try_clone()?;
        rows.push(ListRow {
            kind: item.attr.kind,
            name,
        })?;
    }
    Ok(rows)
}
