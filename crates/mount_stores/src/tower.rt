// What a session runs over: a store of sealed blocks, behind a cache.
ghost use Rattle.std.specs.Prelude.{◌≡◌, ◌≤◌, ◌-◌, ◌/◌, max, IfOk, IfErr};
ghost use Rattle.outside.specs.Trace.{config};
ghost use Rattle.outside.specs.Changes.{change_at};
ghost use Rattle.record_saver.specs.local_state.Record.{plain_state, HasRecord};
ghost use Rattle.block_cache.specs.store_api.Holdings.{IsFew};
ghost use Rattle.integrity_store.specs.sealed_store.Stores.{IsIntact, block_size_of};
ghost use Rattle.integrity_store.specs.block_versions.Standing.{records};
ghost use Rattle.integrity_store.specs.block_versions.Stores.{IsNoBlock};
ghost use Rattle.integrity_store.specs.block_versions.Views.{held_of};
ghost use Rattle.integrity_store.specs.Made.{IsSoundAs};
ghost use Rattle.config_file.specs.aes_gcm.Gcm.{opened_of};
ghost use Rattle.mount_stores.specs.Stores.{ComesBack, HoldsAll};
ghost use Rattle.mount_stores.specs.Tower.{vault_in, trace_in, tower_meanings, tower_holdings, tower_durables};

use block_cache::BlockCache;
use config_file::Cipher;
use integrity_store::IntegrityStore;
use integrity_store::sealed_store::SealedStore;
use outside::Vault;
use record_saver::local_state::State;
use std::alloc::Global;

/// A store of sealed blocks, behind a cache.
pub type Cached<V> = BlockCache<IntegrityStore<V, Cipher>>;

/// As many blocks as have these bytes stay in the cache of a session: 2,048 of 16 KiB. Where blocks are gone through in a
/// circle and don't all fit, each of them is loaded anew, as with a directory that is larger than the cache.
const CACHED_BYTES: usize = 32 * 1024 * 1024;

/// And no fewer blocks than these, so that a path and what is changed at its end fit. Those of 1 MiB so take 128 MiB.
const MIN_CACHED: usize = 128;

/// How many blocks of this size the cache of a session holds.
fn cached_blocks(block_size: usize) -> usize
    requires { 1 ≤ block_size }
    ensures { result ≡ max MIN_CACHED (CACHED_BYTES / block_size) }
{
    MIN_CACHED.max(CACHED_BYTES / block_size)
}

/// A store over these files, of which a client knows this state, behind an empty cache. Where there is no memory for the cache, the
/// directory comes back.
pub(crate) fn cached_store<V: Vault>(
    alloc: Global,
    sealed: SealedStore<V, Cipher>,
    state: State,
) -> Result<Cached<V>, V>
    requires sealed { IsIntact (block_size_of sealed) 16 }
    requires state { HasRecord (plain_state state) sealed.vault.list }
    requires config { IsNoBlock (change_at config sealed.vault.list) }
    ensures intact { IfOk result (λ store. (tower_meanings V.trace V.faults).intact store) }
    ensures few { IfOk result (λ store. IsFew ((tower_holdings V.trace).used store)) }
    ensures holds { IfOk result (λ store. HoldsAll V.trace V.faults
        (held_of (λ cipher key extra text. opened_of key extra text) sealed state) sealed.vault.vault store) }
    ensures sound { IfOk result (λ store. IsSoundAs (tower_meanings V.trace V.faults) (tower_holdings V.trace) (tower_durables V.trace) records
        (held_of (λ cipher key extra text. opened_of key extra text) sealed state) store) }
    ensures back { IfErr result (λ vault. ComesBack V.trace V.faults sealed.vault.vault vault) }
{
    let capacity = cached_blocks(sealed.block_size());
    match BlockCache::new(alloc, IntegrityStore::new(sealed, state), capacity) {
        Ok(store) => Ok(store),
        Err((_, store)) => Err(store.into_vault()),
    }
}

/// The directory, without the cache and the unwritten list.
pub fn into_vault<V: Vault>(store: Cached<V>) -> V
    ensures vault { result ≡ vault_in store }
    ensures trace { V.trace result ≡ trace_in V.trace store }
{
    store.into_store().into_vault()
}
