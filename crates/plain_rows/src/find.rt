// Directories by their paths, and rows by their names.
ghost use Rattle.std.specs.Prelude.{T, IfOk, IfErr, map};
ghost use Rattle.std.specs.FinMap.{is_sorted};
ghost use Rattle.fs_model.specs.Tree.{upward, path_cmp, name_cmp};
ghost use Rattle.plain_rows.specs.Sorted.{IsElementAt, IsGap};
ghost use Rattle.plain_rows.specs.Rows.{folder_entry, item_entry};

use crate::rows::{Folder, Item};
use fs_model::{Name, cmp_names};

/// The directory of a path, or the place where it would stand.
pub fn find_folder(folders: &[Box<Folder>], names: &[Name]) -> Result<usize, usize>
    requires { T (is_sorted path_cmp (map folder_entry folders.now)) }
    ensures found { IfOk result (IsElementAt path_cmp folder_entry folders.now (upward names.now)) }
    ensures absent { IfErr result (IsGap path_cmp folder_entry folders.now (upward names.now)) }
{
    folders.binary_search_by(|folder| cmp_names(folder.path.names(), names))
}

/// The row of a name, or the place where it would stand.
pub fn find_item(items: &[Box<Item>], name: &Name) -> Result<usize, usize>
    requires { T (is_sorted name_cmp (map item_entry items.now)) }
    ensures found { IfOk result (IsElementAt name_cmp item_entry items.now name.now) }
    ensures absent { IfErr result (IsGap name_cmp item_entry items.now name.now) }
{
    items.binary_search_by(|item| item.name.as_slice().cmp(&name.as_slice()))
}
