// One function a promise, each over any store of blobs. True where the store keeps it.
use block_id::{BlockId, Fail, Why};
use memory_stores::blob_api::Blobs;
use std::alloc::Global;

/// So many bytes take several blocks of a small store.
const LEN: usize = 200;

/// A blob has the bytes that it was made of, and its own id.
pub fn reads_what_was_made<B: Blobs>(alloc: Global, b: &mut B) -> Result<bool, Fail>
    requires { B.meanings.intact b.old }
    ensures { B.meanings.intact b.new }
{
    let first = b.create(alloc, &[1; LEN])?;
    let second = b.create(alloc, &[])?;
    let tail = b.read(alloc, &first, 198, 100)?;
    let past = b.read(alloc, &first, 201, 100)?;
    let parts = tail.as_slice() == [1; 2].as_slice() && past.is_empty() && first != second;
    Ok(parts && has(alloc, b, &first, &[1; LEN])? && has(alloc, b, &second, &[])?)
}

/// A write sets its bytes, with zeros behind the old end, and leaves the other blob.
pub fn writes<B: Blobs>(alloc: Global, b: &mut B) -> Result<bool, Fail>
    requires { B.meanings.intact b.old }
    ensures { B.meanings.intact b.new }
{
    let id = b.create(alloc, &[1; 4])?;
    let other = b.create(alloc, &[1; LEN])?;
    b.write(alloc, &id, 1, &[2, 3])?;
    let inside = has(alloc, b, &id, &[1, 2, 3, 1])?;
    b.write(alloc, &id, 9, &[])?;
    let nothing = has(alloc, b, &id, &[1, 2, 3, 1])?;
    b.write(alloc, &id, 6, &[4])?;
    let behind = has(alloc, b, &id, &[1, 2, 3, 1, 0, 0, 4])?;
    Ok(inside && nothing && behind && has(alloc, b, &other, &[1; LEN])?)
}

/// A blob is cut, or filled up with zeros.
pub fn resizes<B: Blobs>(alloc: Global, b: &mut B) -> Result<bool, Fail>
    requires { B.meanings.intact b.old }
    ensures { B.meanings.intact b.new }
{
    let id = b.create(alloc, &[1; LEN])?;
    b.resize(alloc, &id, 2)?;
    let cut = has(alloc, b, &id, &[1, 1])?;
    b.resize(alloc, &id, 5)?;
    Ok(cut && has(alloc, b, &id, &[1, 1, 0, 0, 0])?)
}

/// A removed blob is no blob, and the other one stays.
pub fn forgets_what_was_removed<B: Blobs>(alloc: Global, b: &mut B) -> Result<bool, Fail>
    requires { B.meanings.intact b.old }
    ensures { B.meanings.intact b.new }
{
    let id = b.create(alloc, &[1; LEN])?;
    let other = b.create(alloc, &[2])?;
    b.remove(alloc, &id)?;
    let gone = b.len(alloc, &id) == Err(Fail::Violation(Why::Structure));
    Ok(gone && has(alloc, b, &other, &[2])?)
}

/// Whether the blob has these bytes.
fn has<B: Blobs>(alloc: Global, b: &mut B, id: &BlockId, bytes: &[u8]) -> Result<bool, Fail>
    requires { B.meanings.intact b.old }
    ensures { B.meanings.intact b.new }
{
    let len = b.len(alloc, id)?;
    let read = b.read(alloc, id, 0, len)?;
    Ok(len == bytes.len() as u64 && read.as_slice() == bytes)
}
