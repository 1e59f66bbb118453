// Found blocks as a store that is only read.
ghost use Rattle.std.specs.Prelude.{◌≡◌, ◌≤◌, IfOk, IfErr, IfSome, [], length, is_some, min};
ghost use Rattle.outside.specs.View.{bytes_of};
ghost use Rattle.outside.specs.Causes.{GetHasCause};
ghost use Rattle.block_versions.specs.store_outcome.Outcome.{Outcome};
ghost use Rattle.block_versions.specs.store_outcome.Meanings.{IsOfBlocks};
ghost use Rattle.store_api.specs.Fronts.{front_of};
ghost use Rattle.store_api.specs.Holdings.{Stays, IsFew};
ghost use Rattle.store_api.specs.Loads.{answer_of};
ghost use Rattle.found_blocks.specs.Stores.{meanings_by, holdings_by, loads_by};
ghost use Rattle.found_blocks.specs.StoreLaws.{lawful_by, steady_by};
ghost use Rattle.found_blocks.specs.Searching.{Discovered};
ghost use Rattle.found_blocks.specs.Views.{IsIdle, finding_by};

use crate::discover::find_all;
use crate::fetch::fetch;
use crate::rows::FoundRows;
use block_id::{BlockId, Fail};
use block_versions::OVERHEAD;
use block_versions::sealed_store::SealedStore;
use call_log::CallLog;
use outside::{GetFail, Vault};
use seal_api::Sealer;
use std::alloc::Global;
use store_api::Blocks;

/// Blocks that were found in a directory of sealed files, each judged by the client and the version that its file named
/// then. The payload of a block is the one that was given for it as it was found: clauses know it by `given`, which no
/// memory holds.
#[derive(Drop)]
pub struct FoundStore<V, C: Sealer> {
    pub sealed: SealedStore<V, C>,
    pub rows: FoundRows,
    pub given: CallLog,
}

impl<V: Vault, C: Sealer> FoundStore<V, C> {
    /// A store over these files, of which nothing was found yet.
    pub fn new(alloc: Global, sealed: SealedStore<V, C>) -> FoundStore<V, C>
        requires idle { IsIdle sealed (C.iv_size sealed.cipher) }
        ensures intact { ⟦<FoundStore<V, C> as Blocks>⟧.meanings.intact result }
        ensures sealed { result.sealed ≡ sealed }
        ensures rows { result.rows ≡ [] }
    {
        FoundStore {
            sealed,
            rows: FoundRows::new(alloc),
            given: CallLog::new(),
        }
    }

    /// Finds the blocks that this root leads to. Each id that is named is asked for once, by one get; a file that opens as
    /// its block's, with whatever client and version, has a row then. Of nodes their children are followed, and of blobs that
    /// are directories the blobs of their entries; what isn't such a thing isn't followed. No payload is held but those of
    /// the directory that is read. It takes a step for each block, and some for the order of the rows.
    pub fn discover(&mut self, alloc: Global, root: &BlockId) -> Result<(), GetFail>
        requires intact { ⟦<FoundStore<V, C> as Blocks>⟧.meanings.intact self.old }
        requires new { self.old.rows ≡ [] }
        ensures discovered { Discovered (finding_by C.opens self.old) (finding_by C.opens self.new) (V.trace self.old.sealed.vault.vault) (V.trace self.new.sealed.vault.vault) }
        ensures intact { ⟦<FoundStore<V, C> as Blocks>⟧.meanings.intact self.new }
        ensures few { IsFew (⟦<FoundStore<V, C> as Blocks>⟧.holdings.used self.new) }
        ensures cause { GetHasCause (V.faults self.old.sealed.vault.vault) (V.faults self.new.sealed.vault.vault) result }
    {
        match find_all(alloc, self, root) {
            Ok(rows) => {
                self.rows = rows;
                let _few = self.rows.len();
                Ok(())
            }
            Err(fail) => Err(fail),
        }
    }

    /// The directory.
    pub fn into_vault(self) -> V
    where
        C: Drop,
        ensures { result ≡ self.sealed.vault.vault }
    {
        let FoundStore { sealed, .. } = self;
        sealed.into_vault()
    }
}

impl<V: Vault, C: Sealer> Blocks for FoundStore<V, C> {
    ghost meanings = { meanings_by (finding_by C.opens) (λ s. V.trace s.sealed.vault.vault)
        (λ s. V.faults s.sealed.vault.vault) (λ s. IsIdle s.sealed (C.iv_size s.sealed.cipher)) };

    ghost holdings = { holdings_by (finding_by C.opens) };

    ghost loads = { loads_by (finding_by C.opens) (λ s. V.trace s.sealed.vault.vault) };

    fn load(&mut self, alloc: Global, id: &BlockId) -> Result<Option<Vec<u8>>, Fail> {
        match self.rows.find(id) {
            None => Ok(None),
            Some(row) => match fetch(alloc, self, id, &row, usize::MAX) {
                Ok(payload) => Ok(Some(payload)),
                Err(fail) => Err(fail),
            },
        }
    }

    fn load_front(
        &mut self,
        alloc: Global,
        id: &BlockId,
        most: usize,
    ) -> Result<Option<Vec<u8>>, Fail> {
        match self.rows.find(id) {
            None => Ok(None),
            Some(row) => match fetch(alloc, self, id, &row, most) {
                Ok(front) => Ok(Some(front)),
                Err(fail) => Err(fail),
            },
        }
    }

    fn is_used(&self, id: &BlockId) -> bool {
        self.rows.has(id)
    }

    fn contains(&self, id: &BlockId) -> bool {
        self.rows.has(id)
    }

    fn fresh(&self, drawn: BlockId) -> BlockId {
        self.rows.fresh(drawn)
    }

    fn payload(&self) -> usize {
        self.sealed.block_size().saturating_sub(OVERHEAD)
    }

    ghost lawful = { lawful_by (finding_by C.opens) (λ s. V.trace s.sealed.vault.vault)
        (λ s. V.faults s.sealed.vault.vault) (λ s. IsIdle s.sealed (C.iv_size s.sealed.cipher)) };

    ghost steady = { steady_by (finding_by C.opens) (λ s. V.trace s.sealed.vault.vault)
        (λ s. V.faults s.sealed.vault.vault) (λ s. IsIdle s.sealed (C.iv_size s.sealed.cipher)) };
}
