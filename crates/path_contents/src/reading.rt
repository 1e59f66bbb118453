// Commands that only look.
ghost use Rattle.std.specs.Prelude.{◌≡◌, IfOk};
ghost use Rattle.path_walks.specs.store_outcome.Outcome.{Outcome};
ghost use Rattle.fs_model.specs.Tree.{upward};
ghost use Rattle.fs_model.specs.LookUp.{look};
ghost use Rattle.fs_model.specs.Step.{listed, told, target_read, content_read};
ghost use Rattle.path_walks.specs.Showing.{BlobsShow, Performed};
ghost use Rattle.path_contents.specs.Replies.{IsRows, IsStatReply, IsTarget, IsContent};

use crate::listing::list_in;
use crate::places::{bytes_at, content_refusal, size_at};
use block_id::{BlockId, Fail};
use fs_model::{ByteText, FsError, Kind, MAX_READ, MAX_TARGET, Name, Reply};
use path_walks::blob_api::Blobs;
use path_walks::{Spot, walk};
use std::alloc::Global;

/// Kind and name of each child.
pub fn list<B: Blobs>(
    alloc: Global,
    b: &mut B,
    root: &BlockId,
    names: &[Name],
) -> Result<Reply, Fail>
    requires { B.meanings.intact b.old }
    ensures outcome { Outcome B.meanings (BlobsShow B.holdings b.old root.now.0) b.old b.new result
        (λ n r. Performed B.holdings b.new root.now.0 (listed n.tree (upward names.now) (look n.tree (upward names.now))) r) }
    ensures variant { IfOk result IsRows }
    ensures unchanged { B.holdings.changed b.new ≡ B.holdings.changed b.old }
{
    match walk(alloc, b, root, names) {
        Ok(Spot::Here(place)) => match place.attr.kind {
            Kind::Directory => list_in(alloc, b, &place.blob),
            Kind::File => Ok(Reply::Error(FsError::NotDirectory)),
            Kind::Link => Ok(Reply::Error(FsError::NotDirectory)),
        },
        Ok(Spot::Wrong(error)) => Ok(Reply::Error(error)),
        Err(fail) => Err(fail),
    }
}

/// The attributes and the number of bytes.
pub fn stat<B: Blobs>(
    alloc: Global,
    b: &mut B,
    root: &BlockId,
    names: &[Name],
) -> Result<Reply, Fail>
    requires { B.meanings.intact b.old }
    ensures outcome { Outcome B.meanings (BlobsShow B.holdings b.old root.now.0) b.old b.new result
        (λ n r. Performed B.holdings b.new root.now.0 (told n.tree (look n.tree (upward names.now))) r) }
    ensures variant { IfOk result IsStatReply }
    ensures unchanged { B.holdings.changed b.new ≡ B.holdings.changed b.old }
{
    match walk(alloc, b, root, names) {
        Ok(Spot::Here(place)) => {
            let size = size_at(alloc, b, &place)?;
            Ok(Reply::Info(place.attr, size))
        }
        Ok(Spot::Wrong(error)) => Ok(Reply::Error(error)),
        Err(fail) => Err(fail),
    }
}

/// The target of a link.
pub fn read_link<B: Blobs>(
    alloc: Global,
    b: &mut B,
    root: &BlockId,
    names: &[Name],
) -> Result<Reply, Fail>
    requires { B.meanings.intact b.old }
    ensures outcome { Outcome B.meanings (BlobsShow B.holdings b.old root.now.0) b.old b.new result
        (λ n r. Performed B.holdings b.new root.now.0 (target_read n.tree (look n.tree (upward names.now))) r) }
    ensures variant { IfOk result IsTarget }
    ensures unchanged { B.holdings.changed b.new ≡ B.holdings.changed b.old }
{
    match walk(alloc, b, root, names) {
        Ok(Spot::Here(place)) => match place.attr.kind {
            Kind::Directory => Ok(Reply::Error(FsError::NotLink)),
            Kind::File => Ok(Reply::Error(FsError::NotLink)),
            Kind::Link => {
                let bytes = bytes_at(alloc, b, &place, 0, MAX_TARGET as u64)?;
                Ok(Reply::Target(ByteText::new(bytes)))
            }
        },
        Ok(Spot::Wrong(error)) => Ok(Reply::Error(error)),
        Err(fail) => Err(fail),
    }
}

/// At most `count` bytes of a file, from `from` on.
pub fn read<B: Blobs>(
    alloc: Global,
    b: &mut B,
    root: &BlockId,
    names: &[Name],
    from: u64,
    count: u64,
) -> Result<Reply, Fail>
    requires { B.meanings.intact b.old }
    ensures outcome { Outcome B.meanings (BlobsShow B.holdings b.old root.now.0) b.old b.new result
        (λ n r. Performed B.holdings b.new root.now.0 (content_read n.tree from count (look n.tree (upward names.now))) r) }
    ensures variant { IfOk result IsContent }
    ensures unchanged { B.holdings.changed b.new ≡ B.holdings.changed b.old }
{
    match walk(alloc, b, root, names) {
        Ok(Spot::Here(place)) => match content_refusal(place.attr.kind) {
            Some(refusal) => Ok(Reply::Error(refusal)),
            None => {
                if count > MAX_READ {
                    return Ok(Reply::Error(FsError::TooLarge));
                }
                let bytes = bytes_at(alloc, b, &place, from, count)?;
                Ok(Reply::Content(ByteText::new(bytes)))
            }
        },
        Ok(Spot::Wrong(error)) => Ok(Reply::Error(error)),
        Err(fail) => Err(fail),
    }
}
