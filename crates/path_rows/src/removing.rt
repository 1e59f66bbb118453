// Commands that take a row away.
ghost use Rattle.std.specs.Prelude.{◌≤◌, ◌∷◌, IfOk};
ghost use Rattle.path_walks.specs.store_outcome.Outcome.{Outcome};
ghost use Rattle.fs_model.specs.Tree.{upward};
ghost use Rattle.fs_model.specs.LookUp.{Found, look};
ghost use Rattle.fs_model.specs.Step.{unless_root, removed_directory, removed_file};
ghost use Rattle.path_walks.specs.Showing.{BlobsShow, Performed};
ghost use Rattle.path_walks.specs.Replies.{IsChangeReply};
ghost use Rattle.path_walks.specs.Sights.{Finding};

use crate::changes::drop_at;
use crate::folders::{has_child, is_directory};
use block_id::{BlockId, Fail};
use fs_model::{FsError, Kind, MAX_MODE, Moment, Name, Reply};
use path_walks::blob_api::Blobs;
use path_walks::{Occupancy, Reached, done, reach, touch};
use std::alloc::Global;

/// An empty directory goes.
pub fn remove_directory<B: Blobs>(
    alloc: Global,
    b: &mut B,
    root: &BlockId,
    names: &[Name],
    now: Moment,
) -> Result<Reply, Fail>
    requires { B.meanings.intact b.old }
    ensures outcome { Outcome B.meanings (BlobsShow B.holdings b.old root.now.0) b.old b.new result
        (λ n r. Performed B.holdings b.new root.now.0 (unless_root n.tree (upward names.now) (removed_directory n.tree now (upward names.now) (look n.tree (upward names.now)))) r) }
    ensures variant { IfOk result IsChangeReply }
{
    match reach(alloc, b, root, names, FsError::Busy) {
        Ok(Reached::Row(at)) => drop_directory(alloc, b, &at, now),
        Ok(Reached::Refused(error)) => Ok(Reply::Error(error)),
        Err(fail) => Err(fail),
    }
}

/// What was found goes, where it is a directory that has no entries, and its directory is touched.
fn drop_directory<B: Blobs>(
    alloc: Global,
    b: &mut B,
    at: &Occupancy,
    now: Moment,
) -> Result<Reply, Fail>
    requires intact { B.meanings.intact b.old }
    requires mode { at.now.dir.place.attr.mode ≤ MAX_MODE }
    ensures outcome { Outcome B.meanings (Finding B.holdings b.old at.now) b.old b.new result
        (λ n r. Performed B.holdings b.new n.root (removed_directory n.tree now (at.now.name.now ∷ n.path) (Found n.is.here.row)) r) }
    ensures variant { IfOk result IsChangeReply }
{
    match at.place.attr.kind {
        Kind::Directory => {
            if has_child(alloc, b, &at.place)? {
                return Ok(Reply::Error(FsError::NotEmpty));
            }
            drop_at(alloc, b, at)?;
            done(touch(alloc, b, &at.dir, now))
        }
        Kind::File => Ok(Reply::Error(FsError::NotDirectory)),
        Kind::Link => Ok(Reply::Error(FsError::NotDirectory)),
    }
}

/// A file or a link goes.
pub fn remove_file<B: Blobs>(
    alloc: Global,
    b: &mut B,
    root: &BlockId,
    names: &[Name],
    now: Moment,
) -> Result<Reply, Fail>
    requires { B.meanings.intact b.old }
    ensures outcome { Outcome B.meanings (BlobsShow B.holdings b.old root.now.0) b.old b.new result
        (λ n r. Performed B.holdings b.new root.now.0 (unless_root n.tree (upward names.now) (removed_file n.tree now (upward names.now) (look n.tree (upward names.now)))) r) }
    ensures variant { IfOk result IsChangeReply }
{
    match reach(alloc, b, root, names, FsError::Busy) {
        Ok(Reached::Row(at)) => drop_file(alloc, b, &at, now),
        Ok(Reached::Refused(error)) => Ok(Reply::Error(error)),
        Err(fail) => Err(fail),
    }
}

/// What was found goes, where it is no directory, and its directory is touched.
fn drop_file<B: Blobs>(alloc: Global, b: &mut B, at: &Occupancy, now: Moment) -> Result<Reply, Fail>
    requires intact { B.meanings.intact b.old }
    requires mode { at.now.dir.place.attr.mode ≤ MAX_MODE }
    ensures outcome { Outcome B.meanings (Finding B.holdings b.old at.now) b.old b.new result
        (λ n r. Performed B.holdings b.new n.root (removed_file n.tree now (at.now.name.now ∷ n.path) (Found n.is.here.row)) r) }
    ensures variant { IfOk result IsChangeReply }
{
    if is_directory(at.place.attr.kind) {
        return Ok(Reply::Error(FsError::IsDirectory));
    }
    drop_at(alloc, b, at)?;
    done(touch(alloc, b, &at.dir, now))
}
