// Changes of which rows the blobs show.
ghost use Rattle.std.specs.Prelude.{◌≤◌, ◌∷◌};
ghost use Rattle.std.specs.FinMap.{remove as without_key};
ghost use Rattle.path_walks.specs.store_outcome.Outcome.{Outcome};
ghost use Rattle.fs_model.specs.Step.{moved_tree};
ghost use Rattle.path_walks.specs.dir_entries.Layout.{entry_of};
ghost use Rattle.path_walks.specs.Midst.{moved_ids};
ghost use Rattle.path_walks.specs.Showing.{IsShownBy};
ghost use Rattle.path_rows.specs.Changes.{Dropping};
ghost use Rattle.path_rows.specs.Moves.{Moving};

use crate::made::Vacancy;
use block_id::Fail;
use fs_model::MAX_MODE;
use path_walks::blob_api::Blobs;
use path_walks::dir_blob::{insert_in, remove_in, rename};
use path_walks::dir_entries::Entry;
use path_walks::fs_blobs::set_parent;
use path_walks::{Occupancy, is_same};
use std::alloc::Global;

/// A row with nothing below it goes: its entry, and its blob.
pub fn drop_at<B: Blobs>(alloc: Global, b: &mut B, at: &Occupancy) -> Result<(), Fail>
    requires { B.meanings.intact b.old }
    ensures { Outcome B.meanings (Dropping B.holdings b.old at.now.dir.place.blob.0 at.now.body.items at.now.name.now at.now.place.blob.0) b.old b.new result
        (λ n _. IsShownBy B.holdings b.new n.root (without_key n.tree (at.now.name.now ∷ n.path)) n.ids) }
{
    let dir = at.dir.place.blob;
    remove_in(alloc, b, &dir, &at.body, at.name)?;
    b.remove(alloc, &at.place.blob)
}

/// A row and what lies below it go to a path that is free: the entry goes from its directory to another, which the
/// header of the blob names then, or gets another name in the same one, which it names already.
pub fn relocate<B: Blobs>(
    alloc: Global,
    b: &mut B,
    from: &Occupancy,
    to: &Vacancy,
    entry: &Entry,
) -> Result<(), Fail>
    requires intact { B.meanings.intact b.old }
    requires mode { entry.now.attr.mode ≤ MAX_MODE }
    ensures { Outcome B.meanings (Moving B.holdings b.old from.now to.now.dir.place.blob.0 to.now.body.items (entry_of entry.now)) b.old b.new result
        (λ n _. IsShownBy B.holdings b.new n.root (moved_tree n.tree n.now (from.now.name.now ∷ n.above) (entry.now.name ∷ n.below) n.row) (moved_ids n.ids (from.now.name.now ∷ n.above) (entry.now.name ∷ n.below))) }
{
    let left = from.dir.place.blob;
    let dir = to.dir.place.blob;
    if is_same(&left, &dir) {
        return rename(alloc, b, &left, &to.body, from.name, entry);
    }
    remove_in(alloc, b, &left, &from.body, from.name)?;
    insert_in(alloc, b, &dir, &to.body, entry)?;
    set_parent(alloc, b, &entry.blob, &dir)
}
