// Rows of a store: an id with its payload, or with none once it was removed.
ghost use Rattle.std.specs.Prelude.{◌≡◌, OnOk, IfOk, is_some};
ghost use Rattle.std.specs.FinMap as fin;
ghost use Rattle.block_id.specs.Fresh.{IsFirstFree};
ghost use Rattle.store_api.specs.Entries.{change_view, entries_of};
ghost use Rattle.store_api.specs.Holdings.{IsFew, is_free};
ghost use Rattle.memory_stores.specs.Rows.{AreWith, living_in};
ghost use Rattle.memory_stores.specs.Setting.{put_all};

use block_id::{BlockId, Memory};
use std::alloc::Global;
use store_api::{Batch, BatchChange};

/// Sets a row to a copy of this change.
fn set(alloc: Global, rows: &mut Batch, id: &BlockId, change: &BatchChange) -> Result<(), Memory>
    ensures { OnOk result (rows.new ≡ fin.insert rows.old id.now.0 (change_view change.now)) }
{
    match change {
        BatchChange::Payload(bytes) => rows.put(id, bytes.as_slice().to_vec(alloc)?),
        BatchChange::Removal => rows.remove(id),
    }
}

/// Sets a row for each of the entries.
fn set_entries(
    alloc: Global,
    rows: &mut Batch,
    entries: &[(BlockId, BatchChange)],
) -> Result<(), Memory>
    ensures { OnOk result (rows.new ≡ put_all (entries_of entries.now) rows.old) }
{
    for entry in entries {
        set(alloc, rows, &entry.0, &entry.1)?;
    }
    Ok(())
}

/// Sets a row for each of the changes.
fn set_all(alloc: Global, rows: &mut Batch, changes: &Batch) -> Result<(), Memory>
    ensures { OnOk result (AreWith changes.now rows.old rows.new) }
{
    set_entries(alloc, rows, changes.entries())
}

/// The rows with the changes, apart.
pub(crate) fn changed(alloc: Global, rows: &Batch, changes: &Batch) -> Result<Batch, Memory>
    ensures with { IfOk result (λ new. AreWith changes.now rows.now new) }
    ensures few { IfOk result (λ new. IsFew (fin.keys new)) }
{
    let mut new = Batch::new(alloc);
    set_all(alloc, &mut new, rows)?;
    set_all(alloc, &mut new, changes)?;
    let _count = new.len();
    Ok(new)
}

/// Whether the id is neither zero nor that of a row.
fn is_unused(rows: &Batch, id: &BlockId) -> bool
    ensures { result ≡ is_free (fin.keys rows.now) id.now.0 }
{
    !rows.has(id) && !id.cmp(&BlockId([0; 16])).is_eq()
}

/// The first id from the drawn one on that is neither zero nor that of a row.
pub(crate) fn first_free(rows: &Batch, drawn: BlockId) -> BlockId
    requires { IsFew (fin.keys rows.now) }
    ensures { IsFirstFree (is_free (fin.keys rows.now)) drawn.0 result.0 }
{
    let mut id = drawn;
    loop {
        if is_unused(rows, &id) {
            return id;
        }
        id = id.next();
    }
}

/// The ids of these entries that have a payload.
pub(crate) fn living(
    alloc: Global,
    entries: &[(BlockId, BatchChange)],
) -> Result<Vec<BlockId>, Memory>
    ensures { IfOk result (λ ids. ids.items ≡ living_in entries.now) }
{
    let mut ids = Vec::new(alloc);
    for entry in entries {
        if is_payload(&entry.1) {
            ids.push(entry.0)?;
        }
    }
    Ok(ids)
}

fn is_payload(change: &BatchChange) -> bool
    ensures { result ≡ is_some (change_view change.now) }
{
    match change {
        BatchChange::Payload(_) => true,
        BatchChange::Removal => false,
    }
}
