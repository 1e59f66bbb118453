// Moving what stands at a path, with all that stands below it.
ghost use Rattle.std.specs.Prelude.{◌≡◌, ◌≤◌, ◌∷◌, IfOk};
ghost use Rattle.path_walks.specs.store_outcome.Outcome.{Outcome};
ghost use Rattle.fs_model.specs.Tree.{upward, is_directory as model_is_directory};
ghost use Rattle.fs_model.specs.LookUp.{look};
ghost use Rattle.fs_model.specs.Step.{unless_root, moved_from, moved_to};
ghost use Rattle.path_walks.specs.Showing.{BlobsShow, Performed};
ghost use Rattle.path_walks.specs.Replies.{IsChangeReply};
ghost use Rattle.path_walks.specs.Sights.{Standing};
ghost use Rattle.path_rows.specs.Onward.{Onward, RefusesOnto};

use crate::beside::look_beside;
use crate::folders::{has_child, is_directory};
use crate::made::Vacancy;
use crate::moves::{move_free, move_onto};
use block_id::{BlockId, Fail};
use fs_model::{FsError, MAX_MODE, Moment, Name, Reply, is_above, same_names};
use path_walks::blob_api::Blobs;
use path_walks::{Folder, Occupancy, Place, Reached, Sight, reach, split_last};
use std::alloc::Global;

/// Every path that has the prefix `from` gets the prefix `to`.
pub fn move_row<B: Blobs>(
    alloc: Global,
    b: &mut B,
    root: &BlockId,
    from: &[Name],
    to: &[Name],
    now: Moment,
) -> Result<Reply, Fail>
    requires { B.meanings.intact b.old }
    ensures outcome { Outcome B.meanings (BlobsShow B.holdings b.old root.now.0) b.old b.new result
        (λ n r. Performed B.holdings b.new root.now.0 (unless_root n.tree (upward from.now) (unless_root n.tree (upward to.now) (moved_from n.tree now (upward from.now) (upward to.now) (look n.tree (upward from.now))))) r) }
    ensures variant { IfOk result IsChangeReply }
{
    if to.is_empty() {
        return Ok(Reply::Error(FsError::Busy));
    }
    match reach(alloc, b, root, from, FsError::Busy) {
        Ok(Reached::Row(at)) => {
            if is_above(from, to) {
                return Ok(Reply::Error(FsError::Invalid));
            }
            if same_names(from, to) {
                return Ok(Reply::Done);
            }
            move_found(alloc, b, root, &at, to, now)
        }
        Ok(Reached::Refused(error)) => Ok(Reply::Error(error)),
        Err(fail) => Err(fail),
    }
}

/// What was found moves to another path, which isn't the root.
fn move_found<B: Blobs>(
    alloc: Global,
    b: &mut B,
    root: &BlockId,
    from: &Occupancy,
    to_names: &[Name],
    now: Moment,
) -> Result<Reply, Fail>
    requires intact { B.meanings.intact b.old }
    requires mode { from.now.place.attr.mode ≤ MAX_MODE }
    requires dir_mode { from.now.dir.place.attr.mode ≤ MAX_MODE }
    ensures outcome { Outcome B.meanings (Onward B.holdings b.old root.now.0 from.now (upward to_names.now)) b.old b.new result
        (λ n r. Performed B.holdings b.new n.leaving.finding.root (moved_to n.leaving.finding.tree now (from.now.name.now ∷ n.leaving.finding.path) (upward to_names.now) n.leaving.finding.is.here.row (look n.leaving.finding.tree (upward to_names.now))) r) }
    ensures variant { IfOk result IsChangeReply }
{
    match split_last(to_names) {
        None => Ok(Reply::Error(FsError::Busy)),
        Some((name, dirs)) => match look_beside(alloc, b, root, from, dirs, name) {
            Ok(Sight::Found(dir, place, body)) => {
                match refusal_onto(alloc, b, &from.place, &place)? {
                    Some(refusal) => {
                        drop(body);
                        Ok(Reply::Error(refusal))
                    }
                    None => {
                        let to = Occupancy {
                            dir: Folder {
                                names: dirs,
                                place: dir,
                            },
                            name,
                            place,
                            body,
                        };
                        move_onto(alloc, b, now, from, &to)
                    }
                }
            }
            Ok(Sight::Vacant(dir, body)) => {
                let to = Vacancy {
                    dir: Folder {
                        names: dirs,
                        place: dir,
                    },
                    name,
                    body,
                };
                move_free(alloc, b, now, from, &to)
            }
            Ok(Sight::Lost(error)) => Ok(Reply::Error(error)),
            Err(fail) => Err(fail),
        },
    }
}

/// Why nothing of this kind may move onto what stands there: both are directories or neither is, and nothing stands
/// below the one that goes.
fn refusal_onto<B: Blobs>(
    alloc: Global,
    b: &mut B,
    place: &Place,
    old: &Place,
) -> Result<Option<FsError>, Fail>
    requires { B.meanings.intact b.old }
    ensures outcome { Outcome B.meanings (Standing B.holdings b.old old.now) b.old b.new result
        (λ n answer. B.holdings.stands_for b.new n.map × RefusesOnto n.tree n.path (model_is_directory place.now.attr.kind) (model_is_directory old.now.attr.kind) answer) }
    ensures unchanged { B.holdings.changed b.new ≡ B.holdings.changed b.old }
{
    let moves = is_directory(place.attr.kind);
    let stays = is_directory(old.attr.kind);
    match (moves, stays) {
        (true, false) => Ok(Some(FsError::NotDirectory)),
        (false, true) => Ok(Some(FsError::IsDirectory)),
        (false, false) => Ok(None),
        (true, true) => {
            if has_child(alloc, b, old)? {
                return Ok(Some(FsError::NotEmpty));
            }
            Ok(None)
        }
    }
}
