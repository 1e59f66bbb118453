// Changing one entry of a directory that is a blob.
ghost use Rattle.std.specs.Prelude.{◌≡◌, ◌≤◌, ◌+◌, IfOk, length, is_some, None, true};
ghost use Rattle.std.specs.FinMap.{find as found_in, put};
ghost use Rattle.fs_blobs.specs.store_outcome.Outcome.{Outcome};
ghost use Rattle.fs_blobs.specs.blob_api.BlobMap.{IsSparing};
ghost use Rattle.fs_model.specs.Tree.{name_cmp, entry_size};
ghost use Rattle.dir_entries.specs.Layout.{Listing, entry_of, IsBody, body_of};
ghost use Rattle.dir_entries.specs.Places.{without};
ghost use Rattle.dir_blob.specs.Directories.{HasEntries, HasRoom, HasRoomIn, HasName, HasNameIn, HasBody, OfEntries};

use crate::bodies::held_at;
use crate::whole_body;
use block_id::{BlockId, Fail, Why};
use dir_entries::{Entry, locate, put_entry};
use fs_blobs::blob_api::Blobs;
use fs_blobs::{resize_body, write_body};
use fs_model::{MAX_ENTRIES, MAX_MODE, Name};
use std::alloc::Global;

/// One more entry.
pub fn insert<B: Blobs>(alloc: Global, b: &mut B, dir: &BlockId, entry: &Entry) -> Result<(), Fail>
    requires intact { B.meanings.intact b.old }
    requires mode { entry.now.attr.mode ≤ MAX_MODE }
    ensures outcome { Outcome B.meanings (HasRoom B.holdings b.old dir.now.0 entry.now.name) b.old b.new result
        (λ n _. HasEntries B.holdings b.new n.is.map dir.now.0 n.is.parent (put name_cmp entry.now.name (entry_of entry.now).1 n.is.listing)) }
    ensures absent { OfEntries B.meanings B.holdings b.old b.new dir.now.0 (λ listing. IfOk result (λ _. found_in name_cmp entry.now.name listing ≡ None)) }
    ensures room { OfEntries B.meanings B.holdings b.old b.new dir.now.0 (λ listing. IfOk result (λ _. length (body_of listing) + entry_size entry.now.name ≤ MAX_ENTRIES)) }
{
    let body = whole_body(alloc, b, dir)?;
    insert_in(alloc, b, dir, &body, entry)
}

/// One more entry of a directory whose body was read.
pub fn insert_in<B: Blobs>(
    alloc: Global,
    b: &mut B,
    dir: &BlockId,
    body: &[u8],
    entry: &Entry,
) -> Result<(), Fail>
    requires intact { B.meanings.intact b.old }
    requires mode { entry.now.attr.mode ≤ MAX_MODE }
    ensures outcome { Outcome B.meanings (HasRoomIn B.holdings b.old dir.now.0 body.now entry.now.name) b.old b.new result
        (λ n _. HasEntries B.holdings b.new n.room.is.map dir.now.0 n.room.is.parent (put name_cmp entry.now.name (entry_of entry.now).1 n.room.is.listing)) }
    ensures absent { (listing : Listing) → IsBody body.now listing → IfOk result (λ _. found_in name_cmp entry.now.name listing ≡ None) }
    ensures room { IfOk result (λ _. length body.now + entry_size entry.now.name ≤ MAX_ENTRIES) }
{
    let mut bytes = Vec::new(alloc);
    put_entry(&mut bytes, entry)?;
    let Some(place) = locate(body, &entry.name) else {
        return Err(Fail::Violation(Why::Structure));
    };
    if place.found.is_some() || body.len() as u64 + bytes.len() as u64 > MAX_ENTRIES {
        return Err(Fail::Violation(Why::Structure));
    }
    bytes.extend_from_slice(&body[place.back..])?;
    write_body(alloc, b, dir, place.front as u64, &bytes)
}

/// The entry of a name goes.
pub fn remove<B: Blobs>(alloc: Global, b: &mut B, dir: &BlockId, name: &Name) -> Result<(), Fail>
    requires { B.meanings.intact b.old }
    ensures outcome { Outcome B.meanings (HasName B.holdings b.old dir.now.0 name.now) b.old b.new result
        (λ n _. HasEntries B.holdings b.new n.is.map dir.now.0 n.is.parent (without name.now n.is.listing)) }
    ensures present { OfEntries B.meanings B.holdings b.old b.new dir.now.0 (λ listing. IfOk result (λ _. is_some (found_in name_cmp name.now listing) ≡ true)) }
{
    let body = whole_body(alloc, b, dir)?;
    remove_in(alloc, b, dir, &body, name)
}

/// The entry of a name goes from a directory whose body was read.
pub fn remove_in<B: Blobs>(
    alloc: Global,
    b: &mut B,
    dir: &BlockId,
    body: &[u8],
    name: &Name,
) -> Result<(), Fail>
    requires { B.meanings.intact b.old }
    ensures outcome { Outcome B.meanings (HasNameIn B.holdings b.old dir.now.0 body.now name.now) b.old b.new result
        (λ n _. HasEntries B.holdings b.new n.named.is.map dir.now.0 n.named.is.parent (without name.now n.named.is.listing)) }
    ensures present { (listing : Listing) → IsBody body.now listing → IfOk result (λ _. is_some (found_in name_cmp name.now listing) ≡ true) }
{
    let Some(place) = held_at(body, name) else {
        return Err(Fail::Violation(Why::Structure));
    };
    let front = place.front as u64;
    let back = &body[place.back..];
    write_body(alloc, b, dir, front, back)?;
    resize_body(alloc, b, dir, front + back.len() as u64)
}

/// Another entry of the same name. Only its bytes are written.
pub fn change<B: Blobs>(alloc: Global, b: &mut B, dir: &BlockId, entry: &Entry) -> Result<(), Fail>
    requires intact { B.meanings.intact b.old }
    requires mode { entry.now.attr.mode ≤ MAX_MODE }
    ensures outcome { Outcome B.meanings (HasName B.holdings b.old dir.now.0 entry.now.name) b.old b.new result
        (λ n _. HasEntries B.holdings b.new n.is.map dir.now.0 n.is.parent (put name_cmp entry.now.name (entry_of entry.now).1 n.is.listing)) }
    ensures present { OfEntries B.meanings B.holdings b.old b.new dir.now.0 (λ listing. IfOk result (λ _. is_some (found_in name_cmp entry.now.name listing) ≡ true)) }
    // Whatever it answers.
    ensures sparing { OfEntries B.meanings B.holdings b.old b.new dir.now.0 (λ listing. IsSparing B.holdings b.old b.new (length (body_of listing)) 0 (length (body_of listing))) }
{
    let body = whole_body(alloc, b, dir)?;
    change_in(alloc, b, dir, &body, entry)
}

/// Another entry of the same name, in a directory whose body was read.
pub fn change_in<B: Blobs>(
    alloc: Global,
    b: &mut B,
    dir: &BlockId,
    body: &[u8],
    entry: &Entry,
) -> Result<(), Fail>
    requires intact { B.meanings.intact b.old }
    requires mode { entry.now.attr.mode ≤ MAX_MODE }
    ensures outcome { Outcome B.meanings (HasNameIn B.holdings b.old dir.now.0 body.now entry.now.name) b.old b.new result
        (λ n _. HasEntries B.holdings b.new n.named.is.map dir.now.0 n.named.is.parent (put name_cmp entry.now.name (entry_of entry.now).1 n.named.is.listing)) }
    ensures present { (listing : Listing) → IsBody body.now listing → IfOk result (λ _. is_some (found_in name_cmp entry.now.name listing) ≡ true) }
    // Whatever it answers.
    ensures sparing { (n : HasBody B.holdings b.old dir.now.0 body.now) → B.meanings.sound b.old → B.meanings.forgeries b.new ≤ B.meanings.forgeries b.old
        → IsSparing B.holdings b.old b.new (length body.now) 0 (length body.now) }
{
    let mut bytes = Vec::new(alloc);
    put_entry(&mut bytes, entry)?;
    let Some(place) = held_at(body, &entry.name) else {
        return Err(Fail::Violation(Why::Structure));
    };
    if place.front + bytes.len() > body.len() {
        return Err(Fail::Violation(Why::Structure));
    }
    write_body(alloc, b, dir, place.front as u64, &bytes)
}
