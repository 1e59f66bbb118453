// A list of changes of blocks.
ghost use Rattle.std.specs.Prelude.{◌≡◌, ◌==◌, ◌≤◌, ◌<◌, ◌+◌, true, false, T, IsTrue, length, slice_get, IfSome, IfNone, OnOk, OnErr};
ghost use Rattle.std.specs.FinMap as fin;
ghost use Rattle.std.specs.FinMap.{is_sorted};
ghost use Rattle.std.specs.FinMap.Entries.{put, find as found};
ghost use Rattle.store_api.specs.Changes.{id_cmp};
ghost use Rattle.store_api.specs.Entries.{entries_of, change_view, changes_of, place, is_entry_of, others};

use block_id::{BlockId, Memory};
use std::alloc::Global;
use std::marker::Model;

/// What becomes of a block: a new payload, or its removal.
#[derive(Drop)]
pub enum BatchChange {
    Payload(Vec<u8>),
    Removal,
}

/// Changes of blocks, at most one of each id, by increasing ids.
#[derive(Drop)]
pub struct Batch {
    entries: Vec<(BlockId, BatchChange)>,
}

impl Model for Batch {
    ghost use Rattle.std.specs.Prelude.{T};
    ghost use Rattle.std.specs.FinMap.{is_sorted};
    ghost use Rattle.store_api.specs.Changes.{Changes, id_cmp};

    ghost Value = { Changes };

    ghost use Rattle.store_api.specs.Entries.{entries_of, changes_of, changes_code};

    ghost coded = { changes_code };

    ghost view = { λ b. changes_of b.entries.items };

    ghost invariant = { λ b. T (is_sorted id_cmp (entries_of b.entries.items)) };
}

/// Whether the id stands behind the entry at this place.
fn is_behind(entries: &[(BlockId, BatchChange)], at: usize, id: &BlockId) -> bool
    requires rises { T (is_sorted id_cmp (entries_of entries.now)) }
    requires within { at < length entries.now }
    ensures behind { result ≡ true → at + 1 ≤ place id.now.0 (entries_of entries.now) }
    ensures before { result ≡ false → place id.now.0 (entries_of entries.now) ≤ at }
{
    id.cmp(&entries[at].0).is_gt()
}

/// Where the id stands, or would stand: found by halves.
#[tactic(auto, using(crate::proofs::Places::place_in))]
fn place_of(entries: &[(BlockId, BatchChange)], id: &BlockId) -> usize
    requires { T (is_sorted id_cmp (entries_of entries.now)) }
    ensures value { result ≡ place id.now.0 (entries_of entries.now) }
    ensures bound { result ≤ length entries.now }
{
    let mut from = 0;
    let mut to = entries.len();
    while from < to {
        let middle = from + (to - from) / 2;
        if is_behind(entries, middle, id) {
            from = middle + 1;
        } else {
            to = middle;
        }
    }
    from
}

/// Whether the entry at this place is that of the id.
fn stands_at(entries: &[(BlockId, BatchChange)], at: usize, id: &BlockId) -> bool
    ensures value { result ≡ is_entry_of id.now.0 (slice_get (entries_of entries.now) at) }
    ensures in_range { IsTrue result → at < length entries.now }
{
    match entries.get(at) {
        Some(entry) => id.cmp(&entry.0).is_eq(),
        None => false,
    }
}

/// The change of this id.
fn find<'a>(entries: &'a [(BlockId, BatchChange)], id: &BlockId) -> Option<&'a BatchChange>
    requires { T (is_sorted id_cmp (entries_of entries.now)) }
    ensures some { IfSome result (λ change. found id_cmp id.now.0 (entries_of entries.now) ≡ Some (change_view change.now)) }
    ensures none { IfNone result (found id_cmp id.now.0 (entries_of entries.now) ≡ None) }
{
    let at = place_of(entries, id);
    if stands_at(entries, at, id) {
        Some(&entries[at].1)
    } else {
        None
    }
}

/// Sets the one change of this id.
fn set(
    entries: &mut Vec<(BlockId, BatchChange)>,
    id: &BlockId,
    change: BatchChange,
) -> Result<(), Memory>
    requires { T (is_sorted id_cmp (entries_of entries.old.items)) }
    ensures ok { OnOk result (entries_of entries.new.items ≡ put id_cmp id.now.0 (change_view change) (entries_of entries.old.items)) }
    ensures err { OnErr result (entries_of entries.new.items ≡ entries_of entries.old.items) }
{
    let at = place_of(entries, id);
    if stands_at(entries, at, id) {
        entries[at].1 = change;
        return Ok(());
    }
    entries.insert(at, (*id, change))?;
    Ok(())
}

/// Takes out the change of this id.
fn take_out(entries: &mut Vec<(BlockId, BatchChange)>, id: &BlockId)
    requires { T (is_sorted id_cmp (entries_of entries.old.items)) }
    ensures { entries_of entries.new.items ≡ others id.now.0 (entries_of entries.old.items) }
{
    let at = place_of(entries, id);
    if stands_at(entries, at, id) {
        let _ = entries.remove(at);
    }
}

impl Batch {
    /// No changes.
    pub fn new(alloc: Global) -> Batch
        ensures { result ≡ fin.empty }
    {
        Batch {
            entries: Vec::new(alloc),
        }
    }

    /// A batch of entries whose ids rise.
    pub(crate) fn of_entries(entries: Vec<(BlockId, BatchChange)>) -> Batch
        requires { T (is_sorted id_cmp (entries_of entries.items)) }
        ensures { result ≡ changes_of entries.items }
    {
        Batch { entries }
    }

    /// The changes, by increasing ids.
    pub fn entries(&self) -> &[(BlockId, BatchChange)]
        ensures { entries_of result.now ≡ fin.entries self.now }
    {
        &self.entries
    }

    /// What the batch says of this id.
    pub fn get(&self, id: &BlockId) -> Option<&BatchChange>
        ensures some { IfSome result (λ change. fin.get self.now id.now.0 ≡ Some (change_view change.now)) }
        ensures none { IfNone result (fin.get self.now id.now.0 ≡ None) }
    {
        find(&self.entries, id)
    }

    /// Whether the batch says something of this id.
    pub fn has(&self, id: &BlockId) -> bool
        ensures { result ≡ fin.contains_key self.now id.now.0 }
    {
        self.get(id).is_some()
    }

    /// Has the id get this payload.
    pub fn put(&mut self, id: &BlockId, payload: Vec<u8>) -> Result<(), Memory>
        ensures ok { OnOk result (self.new ≡ fin.insert self.old id.now.0 (Some payload.items)) }
        ensures err { OnErr result (self.new ≡ self.old) }
    {
        set(&mut self.entries, id, BatchChange::Payload(payload))
    }

    /// Has the id removed.
    pub fn remove(&mut self, id: &BlockId) -> Result<(), Memory>
        ensures ok { OnOk result (self.new ≡ fin.insert self.old id.now.0 None) }
        ensures err { OnErr result (self.new ≡ self.old) }
    {
        set(&mut self.entries, id, BatchChange::Removal)
    }

    /// Forgets all changes.
    pub fn clear(&mut self)
        ensures { self.new ≡ fin.empty }
    {
        self.entries.clear();
    }

    /// How many ids the batch changes.
    pub fn len(&self) -> usize
        ensures { result ≡ fin.len self.now }
    {
        self.entries().len()
    }

    /// Whether the batch changes nothing.
    pub fn is_empty(&self) -> bool
        ensures { result ≡ (fin.len self.now == 0) }
    {
        self.len() == 0
    }

    /// Takes back what it says of this id.
    pub fn forget(&mut self, id: &BlockId)
        ensures { self.new ≡ fin.remove self.old id.now.0 }
    {
        take_out(&mut self.entries, id);
    }
}
