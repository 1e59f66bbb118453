// Blobs of the file system over any store of blobs.
ghost use Rattle.std.specs.Prelude.{◌≡◌, ◌≤◌, ◌+◌, length, take, drop};
ghost use Rattle.std.specs.FinMap.{insert};
ghost use Rattle.blob_api.specs.store_outcome.Outcome.{Outcome};
ghost use Rattle.block_id.specs.Contents.{resized, written};
ghost use Rattle.blob_api.specs.BlobMap.{StandsForMap, IsNew, IsSparing};
ghost use Rattle.fs_blobs.specs.Headers.{blob};
ghost use Rattle.fs_blobs.specs.Blobs.{IsBlob};

use crate::{HEADER_LEN, Header, header_bytes, read_header};
use blob_api::{Blobs, MAX_BLOB};
use block_id::{BlockId, Fail, Why};
use std::alloc::Global;

/// Where a blob's body begins.
const BODY_PLACE: u64 = HEADER_LEN as u64;

/// Where the id of the parent stands in a header.
const PARENT_PLACE: u64 = 3;

/// A new blob of this header and body.
pub fn new_blob<B: Blobs>(
    alloc: Global,
    b: &mut B,
    header: &Header,
    body: &[u8],
) -> Result<BlockId, Fail>
    requires intact { B.meanings.intact b.old }
    requires fits { HEADER_LEN + length body.now ≤ MAX_BLOB }
    ensures { Outcome B.meanings (StandsForMap B.holdings b.old) b.old b.new result
        (λ n id. IsNew B.holdings b.new n.map id.0 (blob header.now.kind header.now.parent.0 body.now)) }
{
    let mut bytes = header_bytes(header).to_vec(alloc)?;
    bytes.extend_from_slice(body)?;
    b.create(alloc, &bytes)
}

/// The header of a blob.
pub fn blob_header<B: Blobs>(alloc: Global, b: &mut B, id: &BlockId) -> Result<Header, Fail>
    requires { B.meanings.intact b.old }
    ensures outcome { Outcome B.meanings (IsBlob B.holdings b.old id.now.0) b.old b.new result
        (λ n h. B.holdings.stands_for b.new n.map × (h.kind ≡ n.kind) × (h.parent.0 ≡ n.parent)) }
    ensures unchanged { B.holdings.changed b.new ≡ B.holdings.changed b.old }
{
    let bytes = b.read(alloc, id, 0, BODY_PLACE)?;
    match read_header(&bytes) {
        Some(header) => Ok(header),
        None => Err(Fail::Violation(Why::Structure)),
    }
}

/// Has a blob's header name another parent.
pub fn set_parent<B: Blobs>(
    alloc: Global,
    b: &mut B,
    id: &BlockId,
    parent: &BlockId,
) -> Result<(), Fail>
    requires { B.meanings.intact b.old }
    ensures { Outcome B.meanings (IsBlob B.holdings b.old id.now.0) b.old b.new result
        (λ n _. B.holdings.stands_for b.new (insert n.map id.now.0 (blob n.kind parent.now.0 n.body))) }
{
    b.write(alloc, id, PARENT_PLACE, &parent.0)
}

/// The length of a blob's body.
pub fn body_len<B: Blobs>(alloc: Global, b: &mut B, id: &BlockId) -> Result<u64, Fail>
    requires { B.meanings.intact b.old }
    ensures outcome { Outcome B.meanings (IsBlob B.holdings b.old id.now.0) b.old b.new result
        (λ n len. B.holdings.stands_for b.new n.map × (len ≡ length n.body)) }
    ensures unchanged { B.holdings.changed b.new ≡ B.holdings.changed b.old }
{
    let len = b.len(alloc, id)?;
    if len < BODY_PLACE {
        return Err(Fail::Violation(Why::Structure));
    }
    Ok(len - BODY_PLACE)
}

/// The bytes of a blob's body from `from` on, at most `count`, cut at the end.
pub fn read_body<B: Blobs>(
    alloc: Global,
    b: &mut B,
    id: &BlockId,
    from: u64,
    count: u64,
) -> Result<Vec<u8>, Fail>
    requires { B.meanings.intact b.old }
    ensures outcome { Outcome B.meanings (IsBlob B.holdings b.old id.now.0) b.old b.new result
        (λ n bytes. B.holdings.stands_for b.new n.map × (bytes.items ≡ take count (drop from n.body))) }
    ensures unchanged { B.holdings.changed b.new ≡ B.holdings.changed b.old }
{
    let place = if from > MAX_BLOB {
        MAX_BLOB
    } else {
        BODY_PLACE + from
    };
    b.read(alloc, id, place, count)
}

/// Writes the bytes at `from` of a blob's body, with zeros between the old end and `from`. No bytes change nothing.
pub fn write_body<B: Blobs>(
    alloc: Global,
    b: &mut B,
    id: &BlockId,
    from: u64,
    bytes: &[u8],
) -> Result<(), Fail>
    requires intact { B.meanings.intact b.old }
    requires fits { HEADER_LEN + (from + length bytes.now) ≤ MAX_BLOB }
    ensures outcome { Outcome B.meanings (IsBlob B.holdings b.old id.now.0) b.old b.new result
        (λ n _. B.holdings.stands_for b.new (insert n.map id.now.0 (blob n.kind n.parent (written n.body from bytes.now)))) }
    // Whatever it answers.
    ensures sparing { (n : IsBlob B.holdings b.old id.now.0) → B.meanings.sound b.old → B.meanings.forgeries b.new ≤ B.meanings.forgeries b.old
        → IsSparing B.holdings b.old b.new (length n.body) from (length bytes.now) }
    ensures idle { length bytes.now ≡ 0 → B.holdings.changed b.new ≡ B.holdings.changed b.old }
{
    b.write(alloc, id, BODY_PLACE + from, bytes)
}

/// Cuts a blob's body to `n` bytes, or fills it up with zeros.
pub fn resize_body<B: Blobs>(alloc: Global, b: &mut B, id: &BlockId, n: u64) -> Result<(), Fail>
    requires intact { B.meanings.intact b.old }
    requires fits { HEADER_LEN + n ≤ MAX_BLOB }
    ensures { Outcome B.meanings (IsBlob B.holdings b.old id.now.0) b.old b.new result
        (λ w _. B.holdings.stands_for b.new (insert w.map id.now.0 (blob w.kind w.parent (resized w.body n)))) }
{
    b.resize(alloc, id, BODY_PLACE + n)
}
