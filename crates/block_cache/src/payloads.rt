// Payloads of blocks in memory, and how they follow what is loaded and changed.
ghost use Rattle.std.specs.Prelude.{◌≡◌, Some, IfSome};
ghost use Rattle.std.specs.FinMap as fin;
ghost use Rattle.store_api.specs.Content.{Id};
ghost use Rattle.store_api.specs.Entries.{change_view};
ghost use Rattle.block_cache.specs.Payloads.{Payloads, CachedOrNot, Renewed, RenewedOne, cached_for};

use block_id::BlockId;
use lru::LruCache;
use std::alloc::Global;
use store_api::{Batch, BatchChange};

/// Caches a copy of this payload, where there is memory for it.
pub(crate) fn cache(
    alloc: Global,
    payloads: &mut LruCache<BlockId, Vec<u8>>,
    id: &BlockId,
    payload: &[u8],
)
    ensures { CachedOrNot id.now payload.now payloads.old payloads.new }
{
    if let Ok(copy) = payload.to_vec(alloc) {
        let _ = payloads.put(*id, copy);
    }
}

/// A copy of a new payload, where there is one and memory for it.
fn copy_of(alloc: Global, change: &BatchChange) -> Option<Vec<u8>>
    ensures { IfSome result (λ bytes. change_view change.now ≡ Some bytes.items) }
{
    match change {
        BatchChange::Payload(bytes) => bytes.as_slice().to_vec(alloc).ok(),
        BatchChange::Removal => None,
    }
}

/// Has what is cached for this id change alike, or forgets it.
fn renew(
    alloc: Global,
    payloads: &mut LruCache<BlockId, Vec<u8>>,
    id: &BlockId,
    change: &BatchChange,
)
    ensures renewed { (other : Id) → RenewedOne id.now.0 (change_view change.now) payloads.old payloads.new other }
    ensures capacity { payloads.new.cap ≡ payloads.old.cap }
{
    let _count = payloads.len();
    if !payloads.contains(id) {
        return;
    }
    match copy_of(alloc, change) {
        Some(copy) => {
            let _ = payloads.put(*id, copy);
        }
        None => {
            let _ = payloads.pop(id);
        }
    }
}

/// Has what is cached for the changed ids change alike, or forgets it.
pub(crate) fn renew_all(alloc: Global, payloads: &mut LruCache<BlockId, Vec<u8>>, batch: &Batch)
    ensures renewed { (id : Id) → Renewed (fin.get batch.now id) (cached_for payloads.old id) (cached_for payloads.new id) }
    ensures capacity { payloads.new.cap ≡ payloads.old.cap }
{
    for entry in batch.entries() {
        renew(alloc, payloads, &entry.0, &entry.1);
    }
}
