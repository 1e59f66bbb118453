// Directories whose children changed.
ghost use Rattle.std.specs.Prelude.{◌≡◌, ◌≤◌};
ghost use Rattle.std.specs.Ordering.{eq_by_cmp};
ghost use Rattle.dir_blob.specs.store_outcome.Outcome.{Outcome};
ghost use Rattle.dir_blob.specs.blob_api.BlobMap.{id_cmp};
ghost use Rattle.fs_model.specs.Tree.{upward};
ghost use Rattle.fs_model.specs.Step.{touched as with_touched};
ghost use Rattle.path_walks.specs.Showing.{IsShownBy};
ghost use Rattle.path_walks.specs.Touching.{Touching, TouchingBoth};

use crate::entries::{set_entry, touched};
use crate::{Folder, split_last};
use block_id::{BlockId, Fail};
use dir_blob::blob_api::Blobs;
use fs_model::{MAX_MODE, Moment};
use std::alloc::Global;

/// Whether two blobs are one.
pub fn is_same(a: &BlockId, b: &BlockId) -> bool
    ensures { result ≡ eq_by_cmp id_cmp a.now.0 b.now.0 }
{
    a.cmp(b).is_eq()
}

/// A directory has other children: its entry, in the directory that holds it, has mtime and ctime now. The root has
/// no entry.
pub fn touch<B: Blobs>(alloc: Global, b: &mut B, dir: &Folder, now: Moment) -> Result<(), Fail>
    requires intact { B.meanings.intact b.old }
    requires mode { dir.now.place.attr.mode ≤ MAX_MODE }
    ensures { Outcome B.meanings (Touching B.holdings b.old dir.now) b.old b.new result
        (λ n _. IsShownBy B.holdings b.new n.root (with_touched n.tree now (upward dir.now.names.now)) n.ids) }
{
    match split_last(dir.names) {
        None => Ok(()),
        Some((name, _)) => {
            let entry = touched(name, &dir.place, now)?;
            set_entry(alloc, b, &dir.place.holder, &entry)
        }
    }
}

/// A row went from one directory to another, or to another name of the same one, which is touched once.
pub fn touch_both<B: Blobs>(
    alloc: Global,
    b: &mut B,
    from: &Folder,
    to: &Folder,
    now: Moment,
) -> Result<(), Fail>
    requires intact { B.meanings.intact b.old }
    requires from_mode { from.now.place.attr.mode ≤ MAX_MODE }
    requires to_mode { to.now.place.attr.mode ≤ MAX_MODE }
    ensures { Outcome B.meanings (TouchingBoth B.holdings b.old from.now to.now) b.old b.new result
        (λ n _. IsShownBy B.holdings b.new n.root (with_touched (with_touched n.tree now (upward from.now.names.now)) now (upward to.now.names.now)) n.ids) }
{
    touch(alloc, b, from, now)?;
    if is_same(&from.place.blob, &to.place.blob) {
        return Ok(());
    }
    touch(alloc, b, to, now)
}
