// What changes in the body of a directory where entries come and go.
ghost use Rattle.std.specs.Prelude.{◌≡◌, ◌≤◌, List, ℕ, None, Some, IfOk, IfSome, IsSomeAnd, drop, is_some, length, true};
ghost use Rattle.std.specs.FinMap.{find};
ghost use Rattle.fs_model.specs.Tree.{name_cmp};
ghost use Rattle.dir_entries.specs.Layout.{EntryTarget, Listing, IsBody, IsEntry, entry_of, entry_text};
ghost use Rattle.dir_entries.specs.Renaming.{IsEdit, renamed};
ghost use Rattle.dir_entries.specs.Places.{IsPlace};

use crate::Entry;
use crate::encode::put_entry;
use crate::place::{Located, locate};
use block_id::Memory;
use fs_model::{MAX_MODE, Name};
use std::alloc::Global;

/// Other bytes between two places of a body.
#[derive(Drop)]
pub struct Edit {
    pub front: usize,
    pub back: usize,
    pub bytes: Vec<u8>,
}

/// The edit by which the entry of a name goes and another one comes. It spans no more than what lies between the two.
pub fn renaming(
    alloc: Global,
    body: &[u8],
    name: &Name,
    entry: &Entry,
) -> Result<Option<Edit>, Memory>
    requires { entry.now.attr.mode ≤ MAX_MODE }
    ensures within { IfOk result (λ answer. IfSome answer (λ e. (e.front ≤ e.back) × (e.back ≤ length body.now))) }
    ensures edits { (listing : Listing) (target : EntryTarget) → IsBody body.now listing → find name_cmp name.now listing ≡ Some target → find name_cmp entry.now.name listing ≡ None
        → IfOk result (λ answer. IsSomeAnd answer (λ e. IsEdit body.now e (renamed name.now (entry_of entry.now) listing))) }
    ensures only { (listing : Listing) → IsBody body.now listing
        → IfOk result (λ answer. IfSome answer (λ _. (is_some (find name_cmp name.now listing) ≡ true) × (find name_cmp entry.now.name listing ≡ None))) }
{
    let mut bytes = Vec::new(alloc);
    put_entry(&mut bytes, entry)?;
    let (Some(old), Some(new)) = (locate(body, name), locate(body, &entry.name)) else {
        return Ok(None);
    };
    if old.found.is_none() || new.found.is_some() {
        return Ok(None);
    }
    exchange(alloc, body, old, new, bytes)
}

/// The entry at one place goes, and these bytes come at another.
fn exchange(
    alloc: Global,
    body: &[u8],
    old: Located,
    new: Located,
    entry: Vec<u8>,
) -> Result<Option<Edit>, Memory>
    requires old { (old.front ≤ old.back) × (old.back ≤ length body.now) }
    requires new { (new.front ≤ new.back) × (new.back ≤ length body.now) }
    ensures within { IfOk result (λ answer. IfSome answer (λ e. (e.front ≤ e.back) × (e.back ≤ length body.now))) }
    ensures edits { (name : List ℕ) (e : List ℕ × EntryTarget) (listing : Listing) (target : EntryTarget) → IsBody body.now listing → IsPlace name listing old.front (Some target) (drop old.back body.now)
        → IsPlace e.0 listing new.front None (drop new.back body.now) → IsEntry e → entry.items ≡ entry_text e
        → IfOk result (λ answer. IsSomeAnd answer (λ x. IsEdit body.now x (renamed name e listing))) }
{
    if old.back <= new.front {
        let mut bytes = Vec::from_slice(alloc, &body[old.back..new.front])?;
        bytes.extend_from_slice(&entry)?;
        return Ok(Some(Edit {
            front: old.front,
            back: new.back,
            bytes,
        }));
    }
    if new.back <= old.front {
        let mut bytes = entry;
        bytes.extend_from_slice(&body[new.back..old.front])?;
        return Ok(Some(Edit {
            front: new.front,
            back: old.back,
            bytes,
        }));
    }
    Ok(None)
}
