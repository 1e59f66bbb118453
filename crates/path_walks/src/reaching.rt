// The row that a command changes.
ghost use Rattle.std.specs.Prelude.{◌≡◌, IfOk};
ghost use Rattle.dir_blob.specs.store_outcome.Outcome.{Outcome};
ghost use Rattle.fs_model.specs.Tree.{upward};
ghost use Rattle.path_walks.specs.Showing.{BlobsShow};
ghost use Rattle.path_walks.specs.Reaching.{ReachedIs, HaveRowModes};

use crate::names::split_last;
use crate::{Folder, Occupancy, Sight, look_at};
use block_id::{BlockId, Fail};
use dir_blob::blob_api::Blobs;
use fs_model::{FsError, Name};
use std::alloc::Global;

/// What a path comes to.
#[derive(Drop)]
pub enum Reached<'a> {
    Row(Occupancy<'a>),
    Refused(FsError),
}

/// The row of a path: `at_root` is what the root gets, which no directory holds.
pub fn reach<'a, B: Blobs>(
    alloc: Global,
    b: &mut B,
    root: &BlockId,
    names: &'a [Name],
    at_root: FsError,
) -> Result<Reached<'a>, Fail>
    requires { B.meanings.intact b.old }
    ensures outcome { Outcome B.meanings (BlobsShow B.holdings b.old root.now.0) b.old b.new result
        (λ n r. B.holdings.stands_for b.new n.map × ReachedIs n.tree n.ids (upward names.now) at_root r) }
    ensures modes { IfOk result HaveRowModes }
    ensures unchanged { B.holdings.changed b.new ≡ B.holdings.changed b.old }
{
    match split_last(names) {
        None => Ok(Reached::Refused(at_root)),
        Some((name, dirs)) => match look_at(alloc, b, root, dirs, name) {
            Ok(Sight::Found(dir, place, body)) => Ok(Reached::Row(Occupancy {
                dir: Folder {
                    names: dirs,
                    place: dir,
                },
                name,
                place,
                body,
            })),
            Ok(Sight::Vacant(_, body)) => {
                drop(body);
                Ok(Reached::Refused(FsError::NoEntry))
            }
            Ok(Sight::Lost(error)) => Ok(Reached::Refused(error)),
            Err(fail) => Err(fail),
        },
    }
}
