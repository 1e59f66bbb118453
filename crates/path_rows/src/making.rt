// Commands that make a row.
ghost use Rattle.std.specs.Prelude.{◌≤◌, [], IfOk, IsTrue, length};
ghost use Rattle.path_walks.specs.store_outcome.Outcome.{Outcome};
ghost use Rattle.fs_model.specs.declared.attr.Kind.TheVariants.{Directory, File, Link};
ghost use Rattle.fs_model.specs.Fitting.{is_target};
ghost use Rattle.fs_model.specs.Tree.{upward, IsWithinLimits};
ghost use Rattle.fs_model.specs.LookUp.{look};
ghost use Rattle.fs_model.specs.Step.{made, new_row};
ghost use Rattle.path_walks.specs.Showing.{BlobsShow, Performed};
ghost use Rattle.path_walks.specs.Replies.{IsChangeReply};

use crate::made::{Vacancy, make_in};
use block_id::{BlockId, Fail};
use fs_model::{
    Attr, DIRECTORY_MODE, FILE_MODE, FsError, Kind, LINK_MODE, MAX_TARGET, Moment, Name, Reply,
    new_attr,
};
use path_walks::blob_api::Blobs;
use path_walks::{Folder, Sight, look_at, split_last};
use std::alloc::Global;

/// A new directory.
pub fn make_directory<B: Blobs>(
    alloc: Global,
    b: &mut B,
    root: &BlockId,
    names: &[Name],
    now: Moment,
) -> Result<Reply, Fail>
    requires { B.meanings.intact b.old }
    ensures outcome { Outcome B.meanings (BlobsShow B.holdings b.old root.now.0) b.old b.new result
        (λ n r. Performed B.holdings b.new root.now.0 (made n.tree now (upward names.now) (new_row Directory DIRECTORY_MODE now []) (look n.tree (upward names.now))) r) }
    ensures variant { IfOk result IsChangeReply }
{
    let attr = new_attr(Kind::Directory, DIRECTORY_MODE, now);
    make(alloc, b, root, names, attr, &[], now)
}

/// A new file without bytes.
pub fn make_file<B: Blobs>(
    alloc: Global,
    b: &mut B,
    root: &BlockId,
    names: &[Name],
    now: Moment,
) -> Result<Reply, Fail>
    requires { B.meanings.intact b.old }
    ensures outcome { Outcome B.meanings (BlobsShow B.holdings b.old root.now.0) b.old b.new result
        (λ n r. Performed B.holdings b.new root.now.0 (made n.tree now (upward names.now) (new_row File FILE_MODE now []) (look n.tree (upward names.now))) r) }
    ensures variant { IfOk result IsChangeReply }
{
    let attr = new_attr(Kind::File, FILE_MODE, now);
    make(alloc, b, root, names, attr, &[], now)
}

/// A new link to this target.
pub fn make_link<B: Blobs>(
    alloc: Global,
    b: &mut B,
    root: &BlockId,
    names: &[Name],
    target: &[u8],
    now: Moment,
) -> Result<Reply, Fail>
    requires intact { B.meanings.intact b.old }
    requires target { IsTrue (is_target target.now) }
    ensures outcome { Outcome B.meanings (BlobsShow B.holdings b.old root.now.0) b.old b.new result
        (λ n r. Performed B.holdings b.new root.now.0 (made n.tree now (upward names.now) (new_row Link LINK_MODE now target.now) (look n.tree (upward names.now))) r) }
    ensures variant { IfOk result IsChangeReply }
{
    let attr = new_attr(Kind::Link, LINK_MODE, now);
    make(alloc, b, root, names, attr, target, now)
}

/// A new row of these attributes and bytes.
fn make<B: Blobs>(
    alloc: Global,
    b: &mut B,
    root: &BlockId,
    names: &[Name],
    attr: Attr,
    bytes: &[u8],
    now: Moment,
) -> Result<Reply, Fail>
    requires intact { B.meanings.intact b.old }
    requires limits { IsWithinLimits (record { attr = attr; bytes = bytes.now }) }
    requires short { length bytes.now ≤ MAX_TARGET }
    ensures outcome { Outcome B.meanings (BlobsShow B.holdings b.old root.now.0) b.old b.new result
        (λ n r. Performed B.holdings b.new root.now.0 (made n.tree now (upward names.now) (record { attr = attr; bytes = bytes.now }) (look n.tree (upward names.now))) r) }
    ensures variant { IfOk result IsChangeReply }
{
    match split_last(names) {
        None => Ok(Reply::Error(FsError::Exists)),
        Some((name, dirs)) => match look_at(alloc, b, root, dirs, name) {
            Ok(Sight::Found(_, _, body)) => {
                drop(body);
                Ok(Reply::Error(FsError::Exists))
            }
            Ok(Sight::Vacant(dir, body)) => {
                let vacancy = Vacancy {
                    dir: Folder {
                        names: dirs,
                        place: dir,
                    },
                    name,
                    body,
                };
                make_in(alloc, b, &vacancy, attr, bytes, now)
            }
            Ok(Sight::Lost(error)) => Ok(Reply::Error(error)),
            Err(fail) => Err(fail),
        },
    }
}
