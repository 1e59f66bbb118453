// An opened file system, seen as the store of its blocks.
ghost use Rattle.std.specs.Prelude.{◌≡◌, ℕ, IfOk, T, is_some, map};
ghost use Rattle.std.specs.FinMap.{is_sorted};
ghost use Rattle.mount.specs.data_nodes.Layout.{ids_of};
ghost use Rattle.mount.specs.block_versions.Loads.{loads_by};
ghost use Rattle.mount.specs.local_state.Known.{live_ids};
ghost use Rattle.mount.specs.store_api.Content.{Id, id_cmp};
ghost use Rattle.mount.specs.store_api.Holdings.{has_id};
ghost use Rattle.check_blocks.specs.Examined.{held_of, trace_of, examined_meanings, examined_holdings};
ghost use Rattle.check_blocks.specs.ExaminedLaws.{examined_lawful, examined_steady};

use block_id::{BlockId, Fail, Memory};
use mount::Mount;
use mount::store_api::Blocks;
use outside::{Keeper, Vault};
use std::alloc::Global;

/// An opened file system whose blocks are loaded from its directory, whatever is cached.
pub struct Examined<V, K> {
    pub mount: Mount<V, K>,
}

impl<V: Vault, K: Keeper> Examined<V, K> {
    /// The ids of the content, by increasing ids.
    pub fn live_ids(&self, alloc: Global) -> Result<Vec<BlockId>, Memory>
        ensures ids { IfOk result (λ ids. ids_of ids.items ≡ live_ids (held_of self.now).state.lives) }
        ensures order { IfOk result (λ ids. T (is_sorted {X = ℕ} id_cmp (map (λ id. (id.0, 0)) ids.items))) }
        ensures live { IfOk result (λ ids. (id : Id) → has_id (ids_of ids.items) id ≡ is_some ((examined_holdings V.trace).content self.now id)) }
    {
        let store = self.mount.core.blobs.tx.store.store();
        store.state().known.live_ids(alloc)
    }
}

impl<V: Vault, K: Keeper> Blocks for Examined<V, K> {
    ghost meanings = { examined_meanings V.trace V.faults K.Keeper };

    ghost holdings = { examined_holdings V.trace };

    ghost loads = { loads_by held_of (trace_of V.trace) };

    fn load(&mut self, alloc: Global, id: &BlockId) -> Result<Option<Vec<u8>>, Fail> {
        self.mount.core.blobs.tx.store.load_below(alloc, id)
    }

    fn load_front(
        &mut self,
        alloc: Global,
        id: &BlockId,
        most: usize,
    ) -> Result<Option<Vec<u8>>, Fail> {
        self.mount
            .core
            .blobs
            .tx
            .store
            .load_front_below(alloc, id, most)
    }

    fn is_used(&self, id: &BlockId) -> bool {
        self.mount.core.blobs.tx.store.is_used(id)
    }

    fn contains(&self, id: &BlockId) -> bool {
        self.mount.core.blobs.tx.store.contains(id)
    }

    fn fresh(&self, drawn: BlockId) -> BlockId {
        self.mount.core.blobs.tx.store.fresh(drawn)
    }

    fn payload(&self) -> usize {
        self.mount.core.blobs.tx.store.payload()
    }

    ghost lawful = { examined_lawful V.trace V.faults (record { kept = K.kept; room = K.room; faults = K.faults; takes = K.takes }) };

    ghost steady = { examined_steady V.trace V.faults (record { kept = K.kept; room = K.room; faults = K.faults; takes = K.takes }) };
}
