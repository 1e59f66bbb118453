// One path of the tree: its blob is walked and judged.
ghost use Rattle.std.specs.Prelude.{◌≡◌, ◌≢◌, ◌<◌, [], true, false, IfOk, IfErr, IfSome, IfNone};
ghost use Rattle.check_rules.specs.store_outcome.Meanings.{IsOfBlocks};
ghost use Rattle.check_rules.specs.store_outcome.Outcome.{Outcome};
ghost use Rattle.check_rules.specs.store_api.Holdings.{Stays};
ghost use Rattle.check_rules.specs.data_tree.Stored.{BlobTree};
ghost use Rattle.check_rules.specs.dir_entries.Layout.{Listing, listing_of};
ghost use Rattle.check_rules.specs.check_walk.Fronts.{FrontState};
ghost use Rattle.check_rules.specs.check_walk.Given.{fail_of, IsLoad};
ghost use Rattle.check_rules.specs.check_walk.Walks.{Walked};
ghost use Rattle.cryfs_check.specs.Rows.{IsRowBlob, FitsKept, most_kept};
ghost use Rattle.cryfs_check.specs.Halts.{IsHalted};

use crate::place::Visit;
use block_id::{Fail, Memory};
use check_rules::check_walk::{Flaw, Front, Halt, Marks, walk_root};
use check_rules::dir_entries::{Entry, decode_entries};
use check_rules::fs_blobs::{HEADER_LEN, read_header};
use check_rules::store_api::Blocks;
use fs_model::{Kind, MAX_ENTRIES, MAX_FILE, MAX_TARGET, has_zero};
use std::alloc::Global;

/// How many bytes of a blob are kept while it is walked: the header, and for a directory and a link one byte more than the body may have.
fn kept_of(kind: Kind) -> usize
    ensures { result ≡ most_kept kind }
{
    match kind {
        Kind::Directory => HEADER_LEN + MAX_ENTRIES as usize + 1,
        Kind::File => HEADER_LEN,
        Kind::Link => HEADER_LEN + MAX_TARGET + 1,
    }
}

fn is_same_kind(a: Kind, b: Kind) -> bool
    ensures same { result ≡ true → a ≡ b }
    ensures differ { result ≡ false → a ≢ b }
{
    match a {
        Kind::Directory => match b {
            Kind::Directory => true,
            Kind::File | Kind::Link => false,
        },
        Kind::File => match b {
            Kind::File => true,
            Kind::Directory | Kind::Link => false,
        },
        Kind::Link => match b {
            Kind::Link => true,
            Kind::Directory | Kind::File => false,
        },
    }
}

/// The entries of a directory's body, or none for a file of so many bytes and a link with this target, or None where it isn't within its limits.
fn judge(alloc: Global, kind: Kind, len: u64, body: &[u8]) -> Result<Option<Vec<Entry>>, Memory>
    ensures fits { IfOk result (λ answer. IfSome answer (λ entries. FitsKept kind len body.now (listing_of entries.items))) }
    ensures only { IfOk result (λ answer. IfNone answer ((listing : Listing) → FitsKept kind len body.now listing → ⊥)) }
{
    match kind {
        Kind::Directory => {
            if body.len() as u64 > MAX_ENTRIES {
                return Ok(None);
            }
            decode_entries(alloc, body)
        }
        Kind::File => {
            if len > MAX_FILE {
                return Ok(None);
            }
            Ok(Some(Vec::new(alloc)))
        }
        Kind::Link => {
            if body.is_empty() || body.len() > MAX_TARGET || has_zero(body) {
                return Ok(None);
            }
            Ok(Some(Vec::new(alloc)))
        }
    }
}

/// Walks the blob that is to be visited. The entries of a directory, or none.
pub fn visit<B: Blocks>(
    alloc: Global,
    store: &mut B,
    marks: &mut Marks,
    owner: u32,
    what: &Visit,
) -> Result<Vec<Entry>, Halt>
    requires intact { B.meanings.intact store.old }
    requires owner { 0 < owner }
    ensures outcome { Outcome B.meanings Unit store.old store.new (fail_of result) (λ _ _. Unit {0}) }
    ensures stays { Stays B.holdings store.old store.new }
    ensures of_blocks { IfErr (fail_of result) IsOfBlocks }
    ensures walked { IfOk result (λ entries. (back : FrontState) × Walked (IsLoad B.meanings B.holdings B.loads) owner store.old store.new marks.old marks.new (record { bytes = []; most = most_kept what.now.kind }) back
        (λ C w ids. BlobTree (B.holdings.payload store.old) C what.now.id.0 w ids) (IsRowBlob what.now.kind what.now.parent.0 (listing_of entries.items))) }
    ensures halted { IfErr result (IsHalted B.meanings B.holdings B.loads owner what.now store.old store.new marks.old marks.new) }
{
    let mut front = Front::new(alloc, kept_of(what.kind));
    let len = match walk_root(alloc, store, marks, &mut front, owner, &what.id) {
        Ok(len) => len,
        Err(halt) => return Err(halt),
    };
    let bytes = front.bytes();
    let header = match read_header(bytes) {
        Some(header) => header,
        None => return Err(Halt::Found(Flaw::BadBlob(what.id))),
    };
    if !is_same_kind(header.kind, what.kind) {
        return Err(Halt::Found(Flaw::BadBlob(what.id)));
    }
    if header.parent != what.parent {
        return Err(Halt::Found(Flaw::Parent(what.id)));
    }
    match judge(
        alloc,
        what.kind,
        len.saturating_sub(HEADER_LEN as u64),
        &bytes[HEADER_LEN..],
    ) {
        Ok(Some(entries)) => Ok(entries),
        Ok(None) => Err(Halt::Found(Flaw::BadBlob(what.id))),
        Err(Memory) => Err(Halt::Failing(Fail::Memory)),
    }
}
