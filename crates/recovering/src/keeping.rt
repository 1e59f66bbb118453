// What was written anew, checked and kept.
ghost use Rattle.std.specs.Prelude.{◌≡◌, [], IfOk, OnOk};
ghost use Rattle.mount.specs.mount_stores.Tower.{sealed_held, sealed_meanings, sealed_holdings, sealed_durables, sealed_trace};
ghost use Rattle.mount.specs.block_versions.Reads.{WentOnByReads};
ghost use Rattle.cryfs_check.specs.Checks.{ListsLive};
ghost use Rattle.recovering.specs.Keeping.{KeepsShown, LeavesUnkept, Tells};

use anew::integrity_store::IntegrityStore;
use block_id::{BlockId, Fail, Memory};
use cryfs_check::check_walk::Flaw;
use cryfs_check::{Checked, check};
use mount::config_file::Cipher;
use mount::record_saver::{Saver, SyncError};
use outside::{Keeper, Vault};
use std::alloc::Global;

/// Why no record is kept: what was written is no file system, a block isn't given as it was written, or the record isn't saved.
pub enum Unkept {
    Flaw(Flaw),
    Failed(Fail),
    Unsaved(SyncError),
}

/// The ids of the content, by rising ids.
fn live_ids<V: Vault>(
    alloc: Global,
    store: &IntegrityStore<V, Cipher>,
) -> Result<Vec<BlockId>, Memory>
    ensures { IfOk result (λ ids. ListsLive ((sealed_holdings V.trace).content store.now) ids.items) }
{
    store.state().known.live_ids(alloc)
}

/// Checks the blocks of a store from the root on, past any cache. Where each has its owner, and not before, the record of the store
/// is kept, by one save. Nothing waits to be written.
pub fn keep<V: Vault, K: Keeper>(
    alloc: Global,
    store: IntegrityStore<V, Cipher>,
    keeper: K,
    root: &BlockId,
) -> (Result<(), Unkept>, V, K)
    requires intact { (sealed_meanings V.trace V.faults).intact store }
    requires none { (sealed_durables V.trace).list store ≡ [] }
    ensures kept { OnOk result.0 (KeepsShown V.trace V.faults K.Keeper store root.now.0 result.1 result.2) }
    ensures unkept { LeavesUnkept V.trace K.Keeper store keeper result.1 result.2 result.0 }
    ensures reads { WentOnByReads (sealed_held store) (sealed_trace V.trace store) (V.trace result.1) }
    ensures tells { Tells V.faults K.Keeper store keeper result.1 result.2 result.0 }
{
    let mut store = store;
    let live = match live_ids(alloc, &store) {
        Ok(live) => live,
        Err(Memory) => return (
            Err(Unkept::Failed(Fail::Memory)),
            store.into_vault(),
            keeper,
        ),
    };
    match check(alloc, &mut store, &live, root) {
        Ok(Checked::Yes(_)) => {}
        Ok(Checked::No(flaw)) => return (Err(Unkept::Flaw(flaw)), store.into_vault(), keeper),
        Err(fail) => return (Err(Unkept::Failed(fail)), store.into_vault(), keeper),
    }
    let mut saver = Saver {
        keeper,
        last: Vec::new(alloc),
        changed: false,
    };
    let saved = saver.keep_short(alloc, &mut store);
    let Saver {
        keeper,
        last: _,
        changed: _,
    } = saver;
    match saved {
        Ok(()) => (Ok(()), store.into_vault(), keeper),
        Err(error) => (Err(Unkept::Unsaved(error)), store.into_vault(), keeper),
    }
}
