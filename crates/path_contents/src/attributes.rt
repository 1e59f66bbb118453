// Commands that set attributes.
ghost use Rattle.std.specs.Prelude.{◌≤◌, ◌∷◌, IfOk};
ghost use Rattle.path_walks.specs.store_outcome.Outcome.{Outcome};
ghost use Rattle.fs_model.specs.Tree.{upward};
ghost use Rattle.fs_model.specs.LookUp.{Found, look};
ghost use Rattle.fs_model.specs.Step.{unless_root, attributes_set};
ghost use Rattle.path_walks.specs.Showing.{BlobsShow, Performed};
ghost use Rattle.fs_model.specs.Changes.{changed_by};
ghost use Rattle.path_walks.specs.Replies.{IsChangeReply};
ghost use Rattle.path_contents.specs.Attributes.{ChangeFits};
ghost use Rattle.path_walks.specs.Sights.{Finding};

use block_id::{BlockId, Fail};
use fs_model::{AttrChange, FsError, MAX_MODE, Moment, Name, Reply, changed};
use path_walks::blob_api::Blobs;
use path_walks::dir_entries::Entry;
use path_walks::{Occupancy, Reached, done, reach, set_entry_in};
use std::alloc::Global;

/// Sets attributes of all but the root.
pub fn set_attributes<B: Blobs>(
    alloc: Global,
    b: &mut B,
    root: &BlockId,
    names: &[Name],
    change: AttrChange,
    now: Moment,
) -> Result<Reply, Fail>
    requires intact { B.meanings.intact b.old }
    requires fits { ChangeFits change }
    ensures outcome { Outcome B.meanings (BlobsShow B.holdings b.old root.now.0) b.old b.new result
        (λ n r. Performed B.holdings b.new root.now.0 (unless_root n.tree (upward names.now) (attributes_set n.tree (upward names.now) (changed_by change now) (look n.tree (upward names.now)))) r) }
    ensures variant { IfOk result IsChangeReply }
{
    match reach(alloc, b, root, names, FsError::Busy) {
        Ok(Reached::Row(at)) => set_found(alloc, b, &at, change, now),
        Ok(Reached::Refused(error)) => Ok(Reply::Error(error)),
        Err(fail) => Err(fail),
    }
}

/// What was found gets other attributes.
fn set_found<B: Blobs>(
    alloc: Global,
    b: &mut B,
    at: &Occupancy,
    change: AttrChange,
    now: Moment,
) -> Result<Reply, Fail>
    requires intact { B.meanings.intact b.old }
    requires fits { ChangeFits change }
    requires mode { at.now.place.attr.mode ≤ MAX_MODE }
    ensures outcome { Outcome B.meanings (Finding B.holdings b.old at.now) b.old b.new result
        (λ n r. Performed B.holdings b.new n.root (attributes_set n.tree (at.now.name.now ∷ n.path) (changed_by change now) (Found n.is.here.row)) r) }
    ensures variant { IfOk result IsChangeReply }
{
    let entry = Entry {
        name: at.name.try_clone()?,
        attr: changed(at.place.attr, change, now),
        blob: at.place.blob,
    };
    let dir = at.dir.place.blob;
    done(set_entry_in(alloc, b, &dir, &at.body, &entry))
}
