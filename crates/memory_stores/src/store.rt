// A store of blocks in memory.
ghost use Rattle.std.specs.Prelude.{◌≡◌, ◌≤◌, IfOk};
ghost use Rattle.std.specs.FinMap as fin;
ghost use Rattle.block_id.specs.declared.sizes.TheConstants.{MIN_PAYLOAD, MAX_BLOCK};
ghost use Rattle.memory_stores.specs.Rows.{meanings_of, holdings_of, loads_of, applied_of, lawful_of, steady_of, settled_of, AreRising, AreLiving};

use crate::rows::{changed, first_free, living};
use block_id::{BlockId, Fail, Memory};
use rand_core::Rng;
use std::alloc::Global;
use store_api::{ApplyError, Batch, BatchChange, Blocks, BlocksMut};

/// Blocks in memory. A removed id stays used.
#[derive(Drop)]
pub struct MapStore {
    payload: usize,
    rows: Batch,
}

impl MapStore {
    /// An empty store of payloads of this length, which is 50 to 1,048,576.
    pub fn new(alloc: Global, payload: usize) -> MapStore
        requires at_least { MIN_PAYLOAD ≤ payload }
        requires at_most { payload ≤ MAX_BLOCK }
        ensures intact { ⟦<MapStore as Blocks>⟧.meanings.intact result }
        ensures payload { result.payload ≡ payload }
        ensures rows { result.rows ≡ fin.empty }
    {
        MapStore {
            payload,
            rows: Batch::new(alloc),
        }
    }

    /// The ids in the content, by increasing bytes.
    pub fn live_ids(&self, alloc: Global) -> Result<Vec<BlockId>, Memory>
        ensures order { IfOk result (λ ids. AreRising ids.items) }
        ensures all { IfOk result (λ ids. AreLiving self.now.rows ids.items) }
    {
        living(alloc, self.rows.entries())
    }
}

impl Blocks for MapStore {
    ghost meanings = { meanings_of (λ s. s.payload) (λ s. s.rows) };

    ghost holdings = { holdings_of (λ s. s.payload) (λ s. s.rows) };

    ghost loads = { loads_of (λ s. s.payload) (λ s. s.rows) };

    fn load(&mut self, alloc: Global, id: &BlockId) -> Result<Option<Vec<u8>>, Fail> {
        match self.rows.get(id) {
            Some(BatchChange::Payload(bytes)) => Ok(Some(bytes.as_slice().to_vec(alloc)?)),
            Some(BatchChange::Removal) => Ok(None),
            None => Ok(None),
        }
    }

    fn load_front(
        &mut self,
        alloc: Global,
        id: &BlockId,
        most: usize,
    ) -> Result<Option<Vec<u8>>, Fail> {
        if let Some(BatchChange::Payload(bytes)) = self.rows.get(id) {
            let count = most.min(bytes.len());
            return Ok(Some(bytes[..count].to_vec(alloc)?));
        }
        Ok(None)
    }

    fn is_used(&self, id: &BlockId) -> bool {
        self.rows.has(id)
    }

    fn contains(&self, id: &BlockId) -> bool {
        match self.rows.get(id) {
            Some(BatchChange::Payload(_)) => true,
            Some(BatchChange::Removal) => false,
            None => false,
        }
    }

    fn fresh(&self, drawn: BlockId) -> BlockId {
        first_free(&self.rows, drawn)
    }

    fn payload(&self) -> usize {
        self.payload
    }

    ghost lawful = { lawful_of (λ s. s.payload) (λ s. s.rows) };

    ghost steady = { steady_of (λ s. s.payload) (λ s. s.rows) };
}

impl BlocksMut for MapStore {
    ghost applied = { applied_of (λ s. s.payload) (λ s. s.rows) };

    ghost drawn = { λ a b changes stream left. left ≡ stream };

    fn apply<R: Rng>(
        &mut self,
        alloc: Global,
        batch: &Batch,
        chance: &mut R,
    ) -> Result<(), ApplyError> {
        match changed(alloc, &self.rows, batch) {
            Ok(rows) => {
                self.rows = rows;
                Ok(())
            }
            Err(_) => Err(ApplyError::Memory),
        }
    }

    ghost settled = { settled_of (λ s. s.payload) (λ s. s.rows) };
}
