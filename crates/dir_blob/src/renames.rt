// Another name for what stands in a directory.
ghost use Rattle.std.specs.Prelude.{◌≡◌, ◌≤◌, ◌+◌, ◌++◌, IfOk, drop, is_some, length, take, true, None};
ghost use Rattle.std.specs.FinMap.{find as found_in, insert as with_key};
ghost use Rattle.fs_model.specs.declared.attr.Kind.TheVariants.{Directory};
ghost use Rattle.fs_blobs.specs.store_outcome.Outcome.{Outcome};
ghost use Rattle.fs_blobs.specs.Headers.{blob};
ghost use Rattle.fs_model.specs.Tree.{name_cmp};
ghost use Rattle.dir_entries.specs.Layout.{Listing, IsBody, entry_of};
ghost use Rattle.dir_entries.specs.Renaming.{renamed};
ghost use Rattle.dir_blob.specs.Directories.{HasBothIn, HasEntries, Reading};

use block_id::{BlockId, Fail, Why};
use dir_entries::{Edit, Entry, renaming};
use fs_blobs::blob_api::{Blobs, MAX_BLOB};
use fs_blobs::{HEADER_LEN, resize_body, write_body};
use fs_model::{MAX_ENTRIES, MAX_MODE, Name};
use std::alloc::Global;

/// The entry of a name goes and another one comes, in a directory whose body was read. What lies outside of the two is
/// written only where it moves.
pub fn rename<B: Blobs>(
    alloc: Global,
    b: &mut B,
    dir: &BlockId,
    body: &[u8],
    name: &Name,
    entry: &Entry,
) -> Result<(), Fail>
    requires intact { B.meanings.intact b.old }
    requires mode { entry.now.attr.mode ≤ MAX_MODE }
    ensures outcome { Outcome B.meanings (HasBothIn B.holdings b.old dir.now.0 body.now name.now (entry_of entry.now)) b.old b.new result
        (λ n _. HasEntries B.holdings b.new n.both.is.map dir.now.0 n.both.is.parent (renamed name.now (entry_of entry.now) n.both.is.listing)) }
    ensures present { (listing : Listing) → IsBody body.now listing → IfOk result (λ _. is_some (found_in name_cmp name.now listing) ≡ true) }
    ensures absent { (listing : Listing) → IsBody body.now listing → IfOk result (λ _. found_in name_cmp entry.now.name listing ≡ None) }
{
    match renaming(alloc, body, name, entry)? {
        Some(edit) => splice(alloc, b, dir, body, edit),
        None => Err(Fail::Violation(Why::Structure)),
    }
}

/// The bytes between two places of a directory's body become others, within the limit of entries. Where the body gets
/// another length what follows is written too.
fn splice<B: Blobs>(
    alloc: Global,
    b: &mut B,
    dir: &BlockId,
    body: &[u8],
    edit: Edit,
) -> Result<(), Fail>
    requires intact { B.meanings.intact b.old }
    requires order { edit.front ≤ edit.back }
    requires within { edit.back ≤ length body.now }
    ensures { Outcome B.meanings (Reading B.holdings b.old dir.now.0 body.now edit) b.old b.new result
        (λ n _. B.holdings.stands_for b.new (with_key n.is.map dir.now.0 (blob Directory n.is.parent (take edit.front body.now ++ (edit.bytes.items ++ drop edit.back body.now))))) }
{
    let Edit {
        front,
        back,
        mut bytes,
    } = edit;
    if (body.len() - (back - front)) as u64 + bytes.len() as u64 > MAX_ENTRIES {
        return Err(Fail::Violation(Why::Structure));
    }
    let from = front as u64;
    if bytes.len() == back - front {
        return write_body(alloc, b, dir, from, &bytes);
    }
    bytes.extend_from_slice(&body[back..])?;
    write_body(alloc, b, dir, from, &bytes)?;
    let end = from + bytes.len() as u64;
    if end >= body.len() as u64 {
        return Ok(());
    }
    resize_body(alloc, b, dir, end)
}
