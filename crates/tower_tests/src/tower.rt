// Durable stores that are opened over a directory in memory.
ghost use Rattle.std.specs.Prelude.{◌≡◌, IfOk};
ghost use Rattle.block_cache.specs.store_api.Holdings.{IsFew};

use crate::{Seal, reopen};
use aes_gcm::Aes256Gcm;
use block_cache::BlockCache;
use block_cache::store_api::Durable;
use integrity_store::IntegrityStore;
use memory_outside::MemoryVault;
use std::alloc::Global;
use std::test::Fail;

/// A durable store over a directory in memory.
pub(crate) trait Tower: Durable {
    /// The store that this record is of.
    fn open(alloc: Global, vault: MemoryVault, record: &[u8]) -> Result<Self, Fail>
        ensures intact { IfOk result (λ store. Self.meanings.intact store) }
        ensures few { IfOk result (λ store. IsFew (Self.holdings.used store)) };

    /// The directory, without what isn't written yet.
    fn into_vault(self) -> MemoryVault;
}

/// The store of sealed blocks alone.
pub(crate) type Store = IntegrityStore<MemoryVault, Aes256Gcm>;

/// Blocks of 128 bytes.
pub(crate) const SEAL: Seal<Aes256Gcm> = Seal {
    cipher: Aes256Gcm,
    key: [3; 32],
    block_size: 128,
};

impl Tower for Store {
    fn open(alloc: Global, vault: MemoryVault, record: &[u8]) -> Result<Store, Fail> {
        reopen(alloc, vault, SEAL, record)
    }

    fn into_vault(self) -> MemoryVault {
        Store::into_vault(self)
    }
}

/// The store behind a cache, as a session has it.
pub(crate) type Cached = BlockCache<Store>;

/// Fewer blocks than the tests have, so that blocks are loaded from the cache and past it.
const CACHED_BLOCKS: usize = 2;

impl Tower for Cached {
    fn open(alloc: Global, vault: MemoryVault, record: &[u8]) -> Result<Cached, Fail> {
        let store: Store = Tower::open(alloc, vault, record)?;
        match BlockCache::new(alloc, store, CACHED_BLOCKS) {
            Ok(store) => Ok(store),
            Err((_, below)) => {
                drop(below);
                Err("out of memory".into())
            }
        }
    }

    fn into_vault(self) -> MemoryVault {
        self.into_store().into_vault()
    }
}
