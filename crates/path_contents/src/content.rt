// Commands that change the content of a file.
ghost use Rattle.std.specs.Prelude.{◌≡◌, ◌≤◌, ◌∷◌, IfOk, false, length};
ghost use Rattle.path_walks.specs.store_outcome.Outcome.{Outcome};
ghost use Rattle.fs_model.specs.Tree.{upward, directory_size};
ghost use Rattle.fs_model.specs.LookUp.{Found, look};
ghost use Rattle.fs_model.specs.Step.{written, truncated};
ghost use Rattle.fs_model.specs.Step as step;
ghost use Rattle.fs_model.specs.declared.limits.TheConstants.{MAX_FILE};
ghost use Rattle.path_walks.specs.Showing.{BlobsShow, Performed};
ghost use Rattle.path_walks.specs.Replies.{IsChangeReply};
ghost use Rattle.path_walks.specs.fs_blobs.Blobs.{IsBlob};
ghost use Rattle.path_contents.specs.Sparing.{IsSparingTwice, IsSparingAt};
ghost use Rattle.path_walks.specs.Sights.{Finding};

use crate::changes::{resize_at, write_at};
use crate::places::content_refusal;
use block_id::{BlockId, Fail};
use fs_model::{FsError, MAX_GROWTH, MAX_MODE, Moment, Name, Reply, is_too_long};
use path_walks::blob_api::Blobs;
use path_walks::fs_blobs::body_len;
use path_walks::{Occupancy, Reached, done, reach, touched};
use std::alloc::Global;

/// The bytes are written at `from`.
pub fn write<B: Blobs>(
    alloc: Global,
    b: &mut B,
    root: &BlockId,
    names: &[Name],
    from: u64,
    bytes: &[u8],
    now: Moment,
) -> Result<Reply, Fail>
    requires { B.meanings.intact b.old }
    ensures outcome { Outcome B.meanings (BlobsShow B.holdings b.old root.now.0) b.old b.new result
        (λ n r. Performed B.holdings b.new root.now.0 (written n.tree now (upward names.now) from bytes.now (look n.tree (upward names.now))) r) }
    ensures sparing { (n : BlobsShow B.holdings b.old root.now.0) → B.meanings.sound b.old → B.meanings.forgeries b.new ≤ B.meanings.forgeries b.old
        → IsSparingAt B.holdings b.old b.new n.tree (upward names.now) from (length bytes.now) }
    ensures variant { IfOk result IsChangeReply }
{
    match reach(alloc, b, root, names, FsError::IsDirectory) {
        Ok(Reached::Row(at)) => write_found(alloc, b, &at, from, bytes, now),
        Ok(Reached::Refused(error)) => Ok(Reply::Error(error)),
        Err(fail) => Err(fail),
    }
}

/// What was found is written, where it is a file.
fn write_found<B: Blobs>(
    alloc: Global,
    b: &mut B,
    at: &Occupancy,
    from: u64,
    bytes: &[u8],
    now: Moment,
) -> Result<Reply, Fail>
    requires intact { B.meanings.intact b.old }
    requires mode { at.now.place.attr.mode ≤ MAX_MODE }
    ensures outcome { Outcome B.meanings (Finding B.holdings b.old at.now) b.old b.new result
        (λ n r. Performed B.holdings b.new n.root (written n.tree now (at.now.name.now ∷ n.path) from bytes.now (Found n.is.here.row)) r) }
    ensures sparing { (n : Finding B.holdings b.old at.now) → B.meanings.sound b.old → B.meanings.forgeries b.new ≤ B.meanings.forgeries b.old
        → IsSparingTwice B.holdings b.old b.new (length n.is.here.row.bytes) (directory_size n.tree n.path) from (length bytes.now) }
    ensures variant { IfOk result IsChangeReply }
{
    match content_refusal(at.place.attr.kind) {
        Some(refusal) => return Ok(Reply::Error(refusal)),
        None => {}
    }
    if bytes.is_empty() {
        return Ok(Reply::Done);
    }
    let end = from.saturating_add(bytes.len() as u64);
    if is_end_too_far(alloc, b, &at.place.blob, end)? {
        return Ok(Reply::Error(FsError::TooLarge));
    }
    let entry = touched(at.name, &at.place, now)?;
    done(write_at(alloc, b, at, &entry, from, bytes))
}

/// A file is cut to a length, or filled up with zeros.
pub fn truncate<B: Blobs>(
    alloc: Global,
    b: &mut B,
    root: &BlockId,
    names: &[Name],
    len: u64,
    now: Moment,
) -> Result<Reply, Fail>
    requires { B.meanings.intact b.old }
    ensures outcome { Outcome B.meanings (BlobsShow B.holdings b.old root.now.0) b.old b.new result
        (λ n r. Performed B.holdings b.new root.now.0 (truncated n.tree now (upward names.now) len (look n.tree (upward names.now))) r) }
    ensures variant { IfOk result IsChangeReply }
{
    match reach(alloc, b, root, names, FsError::IsDirectory) {
        Ok(Reached::Row(at)) => truncate_found(alloc, b, &at, len, now),
        Ok(Reached::Refused(error)) => Ok(Reply::Error(error)),
        Err(fail) => Err(fail),
    }
}

/// What was found gets this length, where it is a file.
fn truncate_found<B: Blobs>(
    alloc: Global,
    b: &mut B,
    at: &Occupancy,
    len: u64,
    now: Moment,
) -> Result<Reply, Fail>
    requires intact { B.meanings.intact b.old }
    requires mode { at.now.place.attr.mode ≤ MAX_MODE }
    ensures outcome { Outcome B.meanings (Finding B.holdings b.old at.now) b.old b.new result
        (λ n r. Performed B.holdings b.new n.root (truncated n.tree now (at.now.name.now ∷ n.path) len (Found n.is.here.row)) r) }
    ensures variant { IfOk result IsChangeReply }
{
    match content_refusal(at.place.attr.kind) {
        Some(refusal) => return Ok(Reply::Error(refusal)),
        None => {}
    }
    if is_end_too_far(alloc, b, &at.place.blob, len)? {
        return Ok(Reply::Error(FsError::TooLarge));
    }
    let entry = touched(at.name, &at.place, now)?;
    done(resize_at(alloc, b, at, &entry, len))
}

/// Whether the file of this blob may not get this end. Its length is asked for only where the end is past what one command may add.
fn is_end_too_far<B: Blobs>(
    alloc: Global,
    b: &mut B,
    blob: &BlockId,
    end: u64,
) -> Result<bool, Fail>
    requires { B.meanings.intact b.old }
    ensures outcome { Outcome B.meanings (IsBlob B.holdings b.old blob.now.0) b.old b.new result
        (λ n far. B.holdings.stands_for b.new n.map × (far ≡ step.is_too_long (length n.body) end)) }
    ensures unchanged { B.holdings.changed b.new ≡ B.holdings.changed b.old }
    ensures fits { IfOk result (λ far. far ≡ false → end ≤ MAX_FILE) }
{
    if end <= MAX_GROWTH {
        return Ok(false);
    }
    let size = body_len(alloc, b, blob)?;
    Ok(is_too_long(size, end))
}
