// A row that moves, to a free name or onto another row.
ghost use Rattle.std.specs.Prelude.{◌≤◌, ◌∷◌, IfOk};
ghost use Rattle.path_walks.specs.store_outcome.Outcome.{Outcome};
ghost use Rattle.fs_model.specs.Step.{moved_tree, moved_unless_large};
ghost use Rattle.path_walks.specs.Midst.{moved_ids};
ghost use Rattle.path_walks.specs.Showing.{PerformedBy};
ghost use Rattle.path_walks.specs.Replies.{IsChangeReply};
ghost use Rattle.path_rows.specs.Moves.{Heading, Replacing, ids_then};

use crate::changes::{drop_at, relocate};
use crate::made::Vacancy;
use block_id::Fail;
use fs_model::{Attr, ENTRY_SIZE, FsError, MAX_ENTRIES, MAX_MODE, Moment, Reply};
use path_walks::blob_api::Blobs;
use path_walks::dir_blob::body_without;
use path_walks::dir_entries::Entry;
use path_walks::{Folder, Occupancy, done, is_same, touch_both};
use std::alloc::Global;

/// A row moves to a free path, where the directory there has room for its entry. The directories that it leaves and
/// comes to are touched.
pub fn move_free<B: Blobs>(
    alloc: Global,
    b: &mut B,
    now: Moment,
    from: &Occupancy,
    to: &Vacancy,
) -> Result<Reply, Fail>
    requires intact { B.meanings.intact b.old }
    requires mode { from.now.place.attr.mode ≤ MAX_MODE }
    requires from_mode { from.now.dir.place.attr.mode ≤ MAX_MODE }
    requires to_mode { to.now.dir.place.attr.mode ≤ MAX_MODE }
    ensures variant { IfOk result IsChangeReply }
    ensures did { Outcome B.meanings (Heading B.holdings b.old now from.now to.now.dir to.now.name.now to.now.body.items) b.old b.new result
        (λ n r. PerformedBy B.holdings b.new n.root (moved_unless_large n.tree now (from.now.name.now ∷ n.above) (to.now.name.now ∷ n.below) (moved_tree n.tree now (from.now.name.now ∷ n.above) (to.now.name.now ∷ n.below) n.row)) r
        (ids_then r n.ids (moved_ids n.ids (from.now.name.now ∷ n.above) (to.now.name.now ∷ n.below)))) }
{
    let size = to.body.len() as u64;
    let left = if is_same(&from.dir.place.blob, &to.dir.place.blob) {
        ENTRY_SIZE + from.name.as_slice().len() as u64
    } else {
        0
    };
    if size > MAX_ENTRIES
        || size + ENTRY_SIZE + to.name.as_slice().len() as u64 > MAX_ENTRIES + left
    {
        return Ok(Reply::Error(FsError::TooLarge));
    }
    let attr = Attr {
        ctime: now,
        ..from.place.attr
    };
    let entry = Entry {
        name: to.name.try_clone()?,
        attr,
        blob: from.place.blob,
    };
    relocate(alloc, b, from, to, &entry)?;
    done(touch_both(alloc, b, &from.dir, &to.dir, now))
}

/// A row moves onto another one, which goes with its blob.
pub fn move_onto<B: Blobs>(
    alloc: Global,
    b: &mut B,
    now: Moment,
    from: &Occupancy,
    to: &Occupancy,
) -> Result<Reply, Fail>
    requires intact { B.meanings.intact b.old }
    requires mode { from.now.place.attr.mode ≤ MAX_MODE }
    requires from_mode { from.now.dir.place.attr.mode ≤ MAX_MODE }
    requires to_mode { to.now.dir.place.attr.mode ≤ MAX_MODE }
    ensures variant { IfOk result IsChangeReply }
    ensures did { Outcome B.meanings (Replacing B.holdings b.old now from.now to.now) b.old b.new result
        (λ n r. PerformedBy B.holdings b.new n.root (moved_unless_large n.tree now (from.now.name.now ∷ n.above) (to.now.name.now ∷ n.below) (moved_tree n.tree now (from.now.name.now ∷ n.above) (to.now.name.now ∷ n.below) n.row)) r
        (ids_then r n.ids (moved_ids n.ids (from.now.name.now ∷ n.above) (to.now.name.now ∷ n.below)))) }
{
    let left = body_without(alloc, &to.body, to.name)?;
    drop_at(alloc, b, to)?;
    let vacancy = Vacancy {
        dir: Folder {
            names: to.dir.names,
            place: to.dir.place,
        },
        name: to.name,
        body: left,
    };
    move_free(alloc, b, now, from, &vacancy)
}
