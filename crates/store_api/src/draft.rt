// Changes of blocks while they are made.
ghost use Rattle.std.specs.Prelude.{◌≡◌, ◌==◌, ◌≤◌, ◌+◌, ◌∷◌, ◌++◌, [], true, T, length, vec_len, vec_capacity, IfSome, IfNone, OnOk, OnErr};
ghost use Rattle.std.specs.FinMap as fin;
ghost use Rattle.std.specs.FinMap.{is_sorted};
ghost use Rattle.std.specs.FinMap.Entries.{put, find as found};
ghost use Rattle.store_api.specs.Changes.{id_cmp};
ghost use Rattle.store_api.specs.Entries.{entries_of, change_view, changes_of, others};

use crate::{Batch, BatchChange};
use block_id::{BlockId, Memory};
use std::alloc::Global;
use std::collections::BTreeMap;
use std::marker::Model;
use std::mem;

/// Changes of blocks while they are made, at most one of each id. They stand in a tree, so one more takes few steps
/// whichever its id is. A batch is made of them without a further allocation, and can be given back.
#[derive(Drop)]
pub struct Draft {
    tree: BTreeMap<BlockId, BatchChange, Global>,
    /// Where the entries of a batch will stand.
    room: Vec<(BlockId, BatchChange)>,
    /// A batch that was given back: the changes are its own.
    given: Option<Batch>,
}

impl Model for Draft {
    ghost use Rattle.std.specs.Prelude.{T, ◌≡◌, ◌≤◌, [], length, vec_capacity};
    ghost use Rattle.std.specs.FinMap.{is_sorted};
    ghost use Rattle.store_api.specs.Changes.{Changes, id_cmp};

    ghost Value = { Changes };

    ghost use Rattle.store_api.specs.Entries.{entries_of, changes_code, drafted};

    ghost coded = { changes_code };

    ghost view = { λ d. drafted d.tree.entries d.given };

    ghost invariant = { λ d. T (is_sorted id_cmp (entries_of d.tree.entries)) × (d.room.items ≡ []) × (length d.tree.entries ≤ vec_capacity d.room) };
}

/// The change of this id.
fn find<'a>(
    tree: &'a BTreeMap<BlockId, BatchChange, Global>,
    id: &BlockId,
) -> Option<&'a BatchChange>
    ensures some { IfSome result (λ change. found id_cmp id.now.0 (entries_of tree.now.entries) ≡ Some (change_view change.now)) }
    ensures none { IfNone result (found id_cmp id.now.0 (entries_of tree.now.entries) ≡ None) }
{
    tree.get(id)
}

/// Sets the one change of this id, and has room for as many entries as there are then.
fn set(
    tree: &mut BTreeMap<BlockId, BatchChange, Global>,
    room: &mut Vec<(BlockId, BatchChange)>,
    id: &BlockId,
    change: BatchChange,
) -> Result<(), Memory>
    requires empty { room.old.items ≡ [] }
    requires room { length tree.old.entries ≤ vec_capacity room.old }
    ensures ok { OnOk result (entries_of tree.new.entries ≡ put id_cmp id.now.0 (change_view change) (entries_of tree.old.entries)) }
    ensures err { OnErr result (tree.new.entries ≡ tree.old.entries) }
    ensures empty { room.new.items ≡ [] }
    ensures room { length tree.new.entries ≤ vec_capacity room.new }
{
    room.reserve(tree.len() + 1)?;
    tree.insert(*id, change)?;
    Ok(())
}

/// Takes out the change of this id.
fn take_out(tree: &mut BTreeMap<BlockId, BatchChange, Global>, id: &BlockId)
    requires { T (is_sorted id_cmp (entries_of tree.old.entries)) }
    ensures others { entries_of tree.new.entries ≡ others id.now.0 (entries_of tree.old.entries) }
    ensures len { length tree.new.entries ≤ length tree.old.entries }
{
    let _ = tree.remove(id);
}

/// Moves all entries behind the others.
fn move_all(
    tree: &mut BTreeMap<BlockId, BatchChange, Global>,
    entries: &mut Vec<(BlockId, BatchChange)>,
)
    requires { vec_len entries.old + length tree.old.entries ≤ vec_capacity entries.old }
    ensures moved { entries.new.items ≡ entries.old.items ++ tree.old.entries }
    ensures left { tree.new.entries ≡ [] }
{
    while let Some(entry) = tree.pop_first() {
        entries.push_reserved(entry);
    }
}

impl Draft {
    /// No changes.
    pub fn new(alloc: Global) -> Draft
        ensures { result ≡ fin.empty }
    {
        Draft {
            tree: BTreeMap::new(alloc),
            room: Vec::new(alloc),
            given: None,
        }
    }

    /// What is said of this id.
    pub fn get(&self, id: &BlockId) -> Option<&BatchChange>
        ensures some { IfSome result (λ change. fin.get self.now id.now.0 ≡ Some (change_view change.now)) }
        ensures none { IfNone result (fin.get self.now id.now.0 ≡ None) }
    {
        match &self.given {
            Some(batch) => batch.get(id),
            None => find(&self.tree, id),
        }
    }

    /// Whether something is said of this id.
    pub fn has(&self, id: &BlockId) -> bool
        ensures { result ≡ fin.contains_key self.now id.now.0 }
    {
        self.get(id).is_some()
    }

    /// Has the id get this payload.
    pub fn put(&mut self, id: &BlockId, payload: Vec<u8>) -> Result<(), Memory>
        ensures ok { OnOk result (self.new ≡ fin.insert self.old id.now.0 (Some payload.items)) }
        ensures err { OnErr result (self.new ≡ self.old) }
    {
        match &mut self.given {
            Some(batch) => batch.put(id, payload),
            None => set(
                &mut self.tree,
                &mut self.room,
                id,
                BatchChange::Payload(payload),
            ),
        }
    }

    /// Has the id removed.
    pub fn remove(&mut self, id: &BlockId) -> Result<(), Memory>
        ensures ok { OnOk result (self.new ≡ fin.insert self.old id.now.0 None) }
        ensures err { OnErr result (self.new ≡ self.old) }
    {
        match &mut self.given {
            Some(batch) => batch.remove(id),
            None => set(&mut self.tree, &mut self.room, id, BatchChange::Removal),
        }
    }

    /// Takes back what is said of this id.
    pub fn forget(&mut self, id: &BlockId)
        ensures { self.new ≡ fin.remove self.old id.now.0 }
    {
        match &mut self.given {
            Some(batch) => batch.forget(id),
            None => take_out(&mut self.tree, id),
        }
    }

    /// Forgets all changes.
    pub fn clear(&mut self)
        ensures { self.new ≡ fin.empty }
    {
        self.tree.clear();
        self.given = None;
    }

    /// How many ids are changed.
    pub fn len(&self) -> usize
        ensures { result ≡ fin.len self.now }
    {
        match &self.given {
            Some(batch) => batch.len(),
            None => self.tree.len(),
        }
    }

    /// Whether nothing is changed.
    pub fn is_empty(&self) -> bool
        ensures { result ≡ (fin.len self.now == 0) }
    {
        self.len() == 0
    }

    /// The changes as a batch; none stay.
    pub fn take(&mut self, alloc: Global) -> Batch
        ensures batch { result ≡ self.old }
        ensures left { self.new ≡ fin.empty }
    {
        let given = mem::replace(&mut self.given, None);
        let mut entries = mem::replace(&mut self.room, Vec::new(alloc));
        move_all(&mut self.tree, &mut entries);
        match given {
            Some(batch) => batch,
            None => Batch::of_entries(entries),
        }
    }

    /// Has the changes of this batch in place of its own.
    pub fn give_back(&mut self, batch: Batch)
        ensures { self.new ≡ batch }
    {
        self.given = Some(batch);
    }
}
