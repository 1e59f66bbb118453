// One directory: rows that come, go and change.
ghost use Rattle.std.specs.Prelude.{◌≡◌, ◌≤◌, ◌<◌, not, true, false, [], length, slice_index_or, OnOk, OnErr, None};
ghost use Rattle.std.specs.Ordering.{eq_by_cmp};
ghost use Rattle.std.specs.Global.{Box};
ghost use Rattle.std.specs.FinMap.{find};
ghost use Rattle.std.specs.FinMap.Entries.{put, where_key};
ghost use Rattle.fs_model.specs.declared.limits.TheConstants.{MAX_ENTRIES};
ghost use Rattle.fs_model.specs.Tree.{name_cmp};
ghost use Rattle.fs_model.specs.Tree as model;
ghost use Rattle.plain_rows.specs.Rows.{item_row, names_of};
ghost use Rattle.plain_rows.specs.Formed.{IsFull};

use crate::find::find_item;
use crate::rows::{Folder, Item};
use block_id::Memory;
use fs_model::{Attr, ENTRY_SIZE, Name};
use std::mem;

/// The bytes of the entry of a name.
pub fn name_size(name: &Name) -> u64
    ensures value { result ≡ model.entry_size name.now }
    ensures bound { result ≤ 321 }
{
    ENTRY_SIZE + name.as_slice().len() as u64
}

/// One row more.
pub fn add_item(folder: &mut Folder, item: Box<Item>) -> Result<(), Memory>
    requires full { IsFull folder.old }
    requires absent { find name_cmp item.value.name (names_of folder.old) ≡ None }
    requires room { folder.old.size ≤ MAX_ENTRIES }
    ensures path { folder.new.path ≡ folder.old.path }
    ensures full { IsFull folder.new }
    ensures ok { OnOk result (names_of folder.new ≡ put name_cmp item.value.name (item_row item.value) (names_of folder.old)) }
    ensures err { OnErr result (names_of folder.new ≡ names_of folder.old) }
{
    match find_item(&folder.items, &item.name) {
        Ok(_) => unreachable!(),
        Err(place) => {
            let size = name_size(&item.name);
            folder.items.insert(place, item)?;
            folder.size += size;
            Ok(())
        }
    }
}

/// One row fewer, and whether none is left.
pub fn take_item(folder: &mut Folder, i: usize) -> (Box<Item>, bool)
    requires full { IsFull folder.old }
    requires in_range { i < length folder.old.items.items }
    ensures value { result.0 ≡ slice_index_or folder.old.items.items i result.0 }
    ensures path { folder.new.path ≡ folder.old.path }
    ensures full { result.1 ≡ false → IsFull folder.new }
    ensures none { result.1 ≡ true → names_of folder.new ≡ [] }
    ensures fewer { names_of folder.new ≡ where_key name_cmp (λ n. not (eq_by_cmp name_cmp result.0.value.name n)) (names_of folder.old) }
{
    let item = folder.items.remove(i);
    folder.size -= name_size(&item.name);
    let none = folder.items.is_empty();
    (item, none)
}

/// Another row of the same name. The bytes that stood there are the result.
pub fn set_item(folder: &mut Folder, i: usize, attr: Attr, bytes: Vec<u8>) -> Vec<u8>
    requires full { IsFull folder.old }
    requires in_range { i < length folder.old.items.items }
    ensures value { (d : Box Item) → result.items ≡ (slice_index_or folder.old.items.items i d).value.bytes.items }
    ensures path { folder.new.path ≡ folder.old.path }
    ensures full { IsFull folder.new }
    ensures set { (d : Box Item) → names_of folder.new ≡ put name_cmp (slice_index_or folder.old.items.items i d).value.name (record { attr = attr; bytes = bytes.items }) (names_of folder.old) }
{
    let item = &mut folder.items[i];
    item.attr = attr;
    mem::replace(&mut item.bytes, bytes)
}
