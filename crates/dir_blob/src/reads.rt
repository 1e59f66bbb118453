// Reading a directory that is a blob.
ghost use Rattle.std.specs.Prelude.{◌≡◌, ◌≤◌, IfOk, IfSome, length};
ghost use Rattle.std.specs.FinMap.{find as found_in};
ghost use Rattle.fs_blobs.specs.store_outcome.Outcome.{Outcome};
ghost use Rattle.fs_model.specs.Tree.{name_cmp};
ghost use Rattle.dir_entries.specs.Layout.{IsListing, listing_of, body_of};
ghost use Rattle.dir_entries.specs.Places.{target_of};
ghost use Rattle.dir_blob.specs.Directories.{IsDirectory};

use block_id::{BlockId, Fail, Why};
use dir_entries::{Entry, decode_entries, locate};
use fs_blobs::blob_api::{Blobs, MAX_BLOB};
use fs_blobs::{HEADER_LEN, read_body};
use fs_model::{Attr, MAX_MODE, Name};
use std::alloc::Global;

/// Bytes of a body at most: those of a blob but for its header.
pub(crate) const MAX_BODY: u64 = MAX_BLOB - HEADER_LEN as u64;

/// The body of a directory.
pub fn whole_body<B: Blobs>(alloc: Global, b: &mut B, dir: &BlockId) -> Result<Vec<u8>, Fail>
    requires { B.meanings.intact b.old }
    ensures outcome { Outcome B.meanings (IsDirectory B.holdings b.old dir.now.0) b.old b.new result
        (λ n bytes. B.holdings.stands_for b.new n.map × (bytes.items ≡ body_of n.listing)) }
    ensures short { IfOk result (λ bytes. length bytes.items ≤ MAX_BODY) }
    ensures unchanged { B.holdings.changed b.new ≡ B.holdings.changed b.old }
{
    let bytes = read_body(alloc, b, dir, 0, MAX_BLOB)?;
    if bytes.len() as u64 > MAX_BODY {
        return Err(Fail::Violation(Why::Structure));
    }
    Ok(bytes)
}

/// The entries of a directory.
pub fn entries<B: Blobs>(alloc: Global, b: &mut B, dir: &BlockId) -> Result<Vec<Entry>, Fail>
    requires { B.meanings.intact b.old }
    ensures outcome { Outcome B.meanings (IsDirectory B.holdings b.old dir.now.0) b.old b.new result
        (λ n es. B.holdings.stands_for b.new n.map × (listing_of es.items ≡ n.listing)) }
    ensures rising { IfOk result (λ es. IsListing (listing_of es.items)) }
    ensures unchanged { B.holdings.changed b.new ≡ B.holdings.changed b.old }
{
    let body = whole_body(alloc, b, dir)?;
    match decode_entries(alloc, &body)? {
        Some(entries) => Ok(entries),
        None => Err(Fail::Violation(Why::Structure)),
    }
}

/// The attributes and the blob that stand under a name.
pub fn find_target<B: Blobs>(
    alloc: Global,
    b: &mut B,
    dir: &BlockId,
    name: &Name,
) -> Result<Option<(Attr, BlockId)>, Fail>
    requires { B.meanings.intact b.old }
    ensures outcome { Outcome B.meanings (IsDirectory B.holdings b.old dir.now.0) b.old b.new result
        (λ n found. B.holdings.stands_for b.new n.map × (found_in name_cmp name.now n.listing ≡ target_of found)) }
    ensures mode { IfOk result (λ answer. IfSome answer (λ found. found.0.mode ≤ MAX_MODE)) }
    ensures unchanged { B.holdings.changed b.new ≡ B.holdings.changed b.old }
{
    Ok(find_in(alloc, b, dir, name)?.0)
}

/// What stands under a name, and the body of the directory.
pub fn find_in<B: Blobs>(
    alloc: Global,
    b: &mut B,
    dir: &BlockId,
    name: &Name,
) -> Result<(Option<(Attr, BlockId)>, Vec<u8>), Fail>
    requires { B.meanings.intact b.old }
    ensures outcome { Outcome B.meanings (IsDirectory B.holdings b.old dir.now.0) b.old b.new result
        (λ n x. B.holdings.stands_for b.new n.map × (found_in name_cmp name.now n.listing ≡ target_of x.0) × (x.1.items ≡ body_of n.listing)) }
    ensures mode { IfOk result (λ x. IfSome x.0 (λ found. found.0.mode ≤ MAX_MODE)) }
    ensures unchanged { B.holdings.changed b.new ≡ B.holdings.changed b.old }
{
    let body = whole_body(alloc, b, dir)?;
    match locate(&body, name) {
        Some(place) => Ok((place.found, body)),
        None => Err(Fail::Violation(Why::Structure)),
    }
}
