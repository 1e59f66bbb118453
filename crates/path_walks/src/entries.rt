// The entry of a row.
ghost use Rattle.std.specs.Prelude.{◌≡◌, ◌≤◌, ◌∷◌, IfOk};
ghost use Rattle.std.specs.FinMap.{insert as with_key};
ghost use Rattle.dir_blob.specs.store_outcome.Outcome.{Outcome};
ghost use Rattle.dir_blob.specs.dir_entries.Layout.{entry_of};
ghost use Rattle.path_walks.specs.Showing.{IsShownBy};
ghost use Rattle.path_walks.specs.Entries.{Setting, SettingIn};

use crate::Place;
use block_id::{BlockId, Fail, Memory};
use dir_blob::blob_api::Blobs;
use dir_blob::dir_entries::Entry;
use dir_blob::{change, change_in};
use fs_model::{Attr, MAX_MODE, Moment, Name};
use std::alloc::Global;

/// A row gets other attributes of its kind.
pub fn set_entry<B: Blobs>(
    alloc: Global,
    b: &mut B,
    dir: &BlockId,
    entry: &Entry,
) -> Result<(), Fail>
    requires intact { B.meanings.intact b.old }
    requires mode { entry.now.attr.mode ≤ MAX_MODE }
    ensures { Outcome B.meanings (Setting B.holdings b.old dir.now.0 (entry_of entry.now)) b.old b.new result
        (λ n _. IsShownBy B.holdings b.new n.root (with_key n.tree (entry.now.name ∷ n.path) (record { attr = entry.now.attr; bytes = n.row.bytes })) n.ids) }
{
    change(alloc, b, dir, entry)
}

/// The same, in a directory whose body was read.
pub fn set_entry_in<B: Blobs>(
    alloc: Global,
    b: &mut B,
    dir: &BlockId,
    body: &[u8],
    entry: &Entry,
) -> Result<(), Fail>
    requires intact { B.meanings.intact b.old }
    requires mode { entry.now.attr.mode ≤ MAX_MODE }
    ensures { Outcome B.meanings (SettingIn B.holdings b.old dir.now.0 body.now (entry_of entry.now)) b.old b.new result
        (λ n _. IsShownBy B.holdings b.new n.setting.root (with_key n.setting.tree (entry.now.name ∷ n.setting.path) (record { attr = entry.now.attr; bytes = n.setting.row.bytes })) n.setting.ids) }
{
    change_in(alloc, b, dir, body, entry)
}

/// The entry of a row whose content or whose children change now.
pub fn touched(name: &Name, place: &Place, now: Moment) -> Result<Entry, Memory>
    ensures name { IfOk result (λ entry. entry.name ≡ name.now) }
    ensures attr { IfOk result (λ entry. entry.attr ≡ record place.now.attr { mtime = now; ctime = now }) }
    ensures blob { IfOk result (λ entry. entry.blob ≡ place.now.blob) }
{
    Ok(Entry {
        name: name.try_clone()?,
        attr: Attr {
            mtime: now,
            ctime: now,
            ..place.attr
        },
        blob: place.blob,
    })
}
