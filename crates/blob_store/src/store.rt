// Byte lists in trees of blocks.
ghost use Rattle.std.specs.Prelude.{◌≡◌};
ghost use Rattle.store_api.specs.Txs.{changes_in, tx_holdings, tx_laws, tx_meanings, tx_steady};
ghost use Rattle.blob_store.specs.Meanings.{meanings_by, holdings_by, lawful_by, steady_by};

use blob_api::Blobs;
use block_id::{BlockId, Fail};
use data_ranges::data_reads::{drop_tree, new_tree, read_range};
use data_ranges::write_range;
use std::alloc::Global;
use store_api::{Blocks, Tx};

/// Byte lists in the blocks of a store, as its changes show them: the blocks are exactly the trees of the lists.
pub struct BlobStore<S> {
    pub tx: Tx<S>,
}

impl<S: Blocks> BlobStore<S> {
    /// The blobs of these changes and the store below them.
    pub fn new(tx: Tx<S>) -> BlobStore<S>
        ensures { result.tx ≡ tx }
    {
        BlobStore { tx }
    }

    /// The changes, with the store below them.
    pub fn into_tx(self) -> Tx<S>
        ensures { result ≡ self.tx }
    {
        let BlobStore { tx } = self;
        tx
    }
}

impl<S: Blocks> Blobs for BlobStore<S> {
    ghost meanings = { meanings_by (λ b. b.tx) (tx_meanings S.meanings S.holdings) };

    ghost holdings = { holdings_by (λ b. b.tx) changes_in (tx_holdings S.holdings) };

    fn create(&mut self, alloc: Global, bytes: &[u8]) -> Result<BlockId, Fail> {
        new_tree(alloc, &mut self.tx, bytes)
    }

    fn remove(&mut self, alloc: Global, id: &BlockId) -> Result<(), Fail> {
        drop_tree(alloc, &mut self.tx, id)
    }

    fn len(&mut self, alloc: Global, id: &BlockId) -> Result<u64, Fail> {
        data_ranges::data_reads::len(alloc, &mut self.tx, id)
    }

    fn read(
        &mut self,
        alloc: Global,
        id: &BlockId,
        from: u64,
        count: u64,
    ) -> Result<Vec<u8>, Fail> {
        read_range(alloc, &mut self.tx, id, from, count)
    }

    fn write(&mut self, alloc: Global, id: &BlockId, from: u64, bytes: &[u8]) -> Result<(), Fail> {
        write_range(alloc, &mut self.tx, id, from, bytes)
    }

    fn resize(&mut self, alloc: Global, id: &BlockId, n: u64) -> Result<(), Fail> {
        data_ranges::resize(alloc, &mut self.tx, id, n)
    }

    ghost lawful = { lawful_by (λ b. b.tx) (tx_meanings S.meanings S.holdings) (tx_laws S.meanings S.holdings S.lawful) };

    ghost steady = { steady_by (λ b. b.tx) changes_in (tx_meanings S.meanings S.holdings) (tx_holdings S.holdings) (tx_steady S.meanings S.holdings S.steady) };
}
