// A store of byte lists in memory.
ghost use Rattle.std.specs.Prelude.{◌≡◌};
ghost use Rattle.std.specs.FinMap as fin;
ghost use Rattle.memory_stores.specs.BlobsRows.{meanings_of, holdings_of, lawful_of, steady_of};

use crate::blobs_rows::{free_id, row};
use crate::bytes::{resized_to, written_to};
use blob_api::Blobs;
use block_id::{BlockId, Fail, Why};
use rand_chacha::ChaCha20Rng;
use rand_core::{Rng, SeedableRng};
use std::alloc::Global;
use store_api::Batch;

/// Byte lists in memory, and the generator that their ids are drawn from.
#[derive(Drop)]
pub struct MapBlobs {
    rows: Batch,
    ids: ChaCha20Rng,
}

impl MapBlobs {
    /// An empty store, which draws its ids by this seed.
    pub fn new(alloc: Global, seed: [u8; 32]) -> MapBlobs
        ensures { ⟦<MapBlobs as Blobs>⟧.holdings.stands_for result fin.empty }
    {
        MapBlobs {
            rows: Batch::new(alloc),
            ids: ChaCha20Rng::from_seed(seed),
        }
    }
}

impl Blobs for MapBlobs {
    ghost meanings = { meanings_of };

    ghost holdings = { holdings_of (λ s. s.rows) };

    fn create(&mut self, alloc: Global, bytes: &[u8]) -> Result<BlockId, Fail> {
        let mut drawn = [0; 16];
        self.ids.fill_bytes(&mut drawn);
        let Some(id) = free_id(&self.rows, BlockId(drawn)) else {
            return Err(Fail::Memory);
        };
        let copy = bytes.to_vec(alloc)?;
        self.rows.put(&id, copy)?;
        Ok(id)
    }

    fn remove(&mut self, alloc: Global, id: &BlockId) -> Result<(), Fail> {
        match row(&self.rows, id) {
            Some(_) => {
                self.rows.forget(id);
                Ok(())
            }
            None => Err(Fail::Violation(Why::Structure)),
        }
    }

    fn len(&mut self, alloc: Global, id: &BlockId) -> Result<u64, Fail> {
        match row(&self.rows, id) {
            Some(bytes) => Ok(bytes.len() as u64),
            None => Err(Fail::Violation(Why::Structure)),
        }
    }

    fn read(
        &mut self,
        alloc: Global,
        id: &BlockId,
        from: u64,
        count: u64,
    ) -> Result<Vec<u8>, Fail> {
        match row(&self.rows, id) {
            Some(bytes) => {
                let len = bytes.len() as u64;
                let start = from.min(len);
                let end = start + count.min(len - start);
                Ok(bytes[start as usize..end as usize].to_vec(alloc)?)
            }
            None => Err(Fail::Violation(Why::Structure)),
        }
    }

    fn write(&mut self, alloc: Global, id: &BlockId, from: u64, bytes: &[u8]) -> Result<(), Fail> {
        match row(&self.rows, id) {
            Some(old) => {
                let new = written_to(alloc, old, from as usize, bytes)?;
                self.rows.put(id, new)?;
                Ok(())
            }
            None => Err(Fail::Violation(Why::Structure)),
        }
    }

    fn resize(&mut self, alloc: Global, id: &BlockId, n: u64) -> Result<(), Fail> {
        match row(&self.rows, id) {
            Some(old) => {
                let new = resized_to(alloc, old, n as usize)?;
                self.rows.put(id, new)?;
                Ok(())
            }
            None => Err(Fail::Violation(Why::Structure)),
        }
    }

    ghost lawful = { lawful_of };

    ghost steady = { steady_of (λ s. s.rows) };
}
