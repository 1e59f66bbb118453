// A record that stands for what was written anew.
ghost use Rattle.std.specs.Prelude.{◌≡◌, ◌<◌, [], false, OnOk};
ghost use Rattle.mount.specs.aes_gcm.Gcm.{opened_of};
ghost use Rattle.mount.specs.block_versions.Views.{held_of};
ghost use Rattle.mount.specs.sealed_store.Stores.{IsIntact, block_size_of};
ghost use Rattle.recovering.specs.Restoring.{IsRestored, LeavesUnrestored, OnlyReads, TellsRestored};

use crate::{Unkept, keep};
use anew::finish;
use anew::integrity_store::sealed_store::SealedStore;
use block_id::BlockId;
use mount::config_file::Cipher;
use mount::local_state::State;
use outside::{Keeper, Vault};
use std::alloc::Global;

/// Checks what was written anew from the root on, and then keeps the record of it. Nothing waits to be written.
pub fn restore<V: Vault, K: Keeper>(
    alloc: Global,
    sealed: SealedStore<V, Cipher>,
    state: State,
    keeper: K,
    root: &BlockId,
) -> (Result<(), Unkept>, V, K)
    requires intact { IsIntact (block_size_of sealed) 16 }
    requires none { sealed.vault.list ≡ [] }
    requires client { 0 < state.client }
    requires least { state.least ≡ 2 }
    requires unmarked { state.marked ≡ false }
    ensures restored { OnOk result.0 (IsRestored V.trace K.Keeper (held_of (λ cipher key extra text. opened_of key extra text) sealed state) root.now.0
        (V.trace sealed.vault.vault) result.1 result.2) }
    ensures unrestored { LeavesUnrestored K.kept keeper result.2 result.0 }
    ensures reads { OnlyReads (V.trace sealed.vault.vault) (V.trace result.1) }
    ensures tells { TellsRestored K.Keeper (V.faults sealed.vault.vault) (V.faults result.1) keeper result.2 result.0 }
{
    let store = finish(sealed, state);
    keep(alloc, store, keeper, root)
}
