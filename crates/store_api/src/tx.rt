// One command's changes over a store.
ghost use Rattle.std.specs.Prelude.{◌≡◌, ◌↔◌, OnOk, OnErr, IfOk, IfErr, IfSome, length, is_some, min, true};
ghost use Rattle.outside.specs.View.{bytes_of};
ghost use Rattle.store_outcome.specs.Meanings.{IsOfBlocks};
ghost use Rattle.store_outcome.specs.Outcome.{Outcome};
ghost use Rattle.std.specs.declared.result.Result.TheVariants.{Err};
ghost use Rattle.std.specs.FinMap as fin;
ghost use Rattle.rand_chacha.specs.ChaCha.{of_seed};
ghost use Rattle.store_api.specs.Applying.{Applies, AppliesNone, KeepsCounts};
ghost use Rattle.store_api.specs.Fronts.{front_of};
ghost use Rattle.store_api.specs.Holdings.{IsFew, IsSpent, Stays, is_free};
ghost use Rattle.store_api.specs.Loads.{LoadsOver, loads_over, answer_of};
ghost use Rattle.store_api.specs.Overlay.{without};
ghost use Rattle.store_api.specs.Txs.{KeepsChanges, LoadsBelow, changes_in, content_of, intact_in, store_in, tx_holdings, tx_laws, tx_meanings, tx_steady};

use crate::fresh::first_free;
use crate::{ApplyError, BatchChange, Blocks, BlocksMut, Draft};
use block_id::{BlockId, Fail, Memory};
use rand_chacha::ChaCha20Rng;
use rand_core::{Rng, SeedableRng};
use std::alloc::Global;

/// Changes over a store that it owns, with a generator of its own for new ids, ChaCha20 of a seed.
pub struct Tx<S> {
    pub store: S,
    overlay: Draft,
    seed: [u8; 32],
    ids: ChaCha20Rng,
}

impl<S: Blocks> Tx<S> {
    /// No changes over this store. New ids come of this seed.
    pub fn new(alloc: Global, store: S, seed: [u8; 32]) -> Tx<S>
        requires intact { S.meanings.intact store }
        requires few { IsFew (S.holdings.used store) }
        ensures intact { intact_in S.meanings S.holdings result }
        ensures store { result.store ≡ store }
        ensures overlay { result.overlay ≡ fin.empty }
        ensures seed { result.seed ≡ seed }
    {
        Tx {
            store,
            overlay: Draft::new(alloc),
            seed,
            ids: ChaCha20Rng::from_seed(seed),
        }
    }

    /// Forgets the changes. New ids come of this seed from now on.
    pub fn begin(&mut self, seed: [u8; 32])
        requires intact { S.meanings.intact self.old.store }
        requires few { IsFew (S.holdings.used self.old.store) }
        ensures intact { intact_in S.meanings S.holdings self.new }
        ensures begun { self.new ≡ record self.old { overlay = fin.empty; seed = seed; ids = of_seed seed } }
    {
        self.overlay.clear();
        self.seed = seed;
        self.ids = ChaCha20Rng::from_seed(seed);
    }

    /// The changes over the store. An id that was new in them and was removed again has none.
    pub fn batch(&self) -> &Draft
        ensures { result.now ≡ self.now.overlay }
    {
        &self.overlay
    }

    /// Has the id, which is in the content, get this payload.
    pub fn put(&mut self, id: &BlockId, payload: Vec<u8>) -> Result<(), Memory>
        requires intact { intact_in S.meanings S.holdings self.old }
        requires sized { length payload.items ≡ S.holdings.payload self.old.store }
        requires there { is_some (content_of S.holdings self.old id.now.0) ≡ true }
        ensures intact { intact_in S.meanings S.holdings self.new }
        ensures store { self.new.store ≡ self.old.store }
        ensures seed { self.new.seed ≡ self.old.seed }
        ensures ok { OnOk result (self.new.overlay ≡ fin.insert self.old.overlay id.now.0 (Some payload.items)) }
        ensures err { OnErr result (self.new.overlay ≡ self.old.overlay) }
    {
        self.overlay.put(id, payload)
    }

    /// Has the id removed. One that was new in the changes is forgotten.
    pub fn remove(&mut self, id: &BlockId) -> Result<(), Memory>
        requires intact { intact_in S.meanings S.holdings self.old }
        requires there { is_some (content_of S.holdings self.old id.now.0) ≡ true }
        ensures intact { intact_in S.meanings S.holdings self.new }
        ensures store { self.new.store ≡ self.old.store }
        ensures seed { self.new.seed ≡ self.old.seed }
        ensures ok { OnOk result (self.new.overlay ≡ without (S.holdings.used self.old.store) self.old.overlay id.now.0) }
        ensures err { OnErr result (self.new.overlay ≡ self.old.overlay) }
    {
        if self.store.is_used(id) {
            return self.overlay.remove(id);
        }
        self.overlay.forget(id);
        Ok(())
    }

    /// Has a new id get this payload: 16 bytes of the generator, or the first id after them that is neither zero nor
    /// used, in the changes or in the store.
    pub fn add(&mut self, payload: Vec<u8>) -> Result<BlockId, Memory>
        requires intact { intact_in S.meanings S.holdings self.old }
        requires sized { length payload.items ≡ S.holdings.payload self.old.store }
        ensures intact { intact_in S.meanings S.holdings self.new }
        ensures store { self.new.store ≡ self.old.store }
        ensures seed { self.new.seed ≡ self.old.seed }
        ensures free { IfOk result (λ id. is_free ((tx_holdings S.holdings).used self.old) id.0 ≡ true) }
        ensures ok { IfOk result (λ id. self.new.overlay ≡ fin.insert self.old.overlay id.0 (Some payload.items)) }
        ensures err { OnErr result (self.new.overlay ≡ self.old.overlay) }
    {
        let mut drawn = [0; 16];
        self.ids.fill_bytes(&mut drawn);
        let _count = self.overlay.len();
        let id = first_free(&self.store, &self.overlay, BlockId(drawn));
        match self.overlay.put(&id, payload) {
            Ok(()) => Ok(id),
            Err(memory) => Err(memory),
        }
    }

    /// Applies the changes to the store. After an error they are as before.
    pub fn commit<R: Rng>(&mut self, alloc: Global, chance: &mut R) -> Result<(), ApplyError>
    where
        S: BlocksMut,
        requires { intact_in S.Blocks.meanings S.Blocks.holdings self.old }
        ensures intact { intact_in S.Blocks.meanings S.Blocks.holdings self.new }
        ensures ok { OnOk result (Applies S.Blocks.meanings S.Blocks.holdings S.applied S.drawn self.old.store self.new.store self.old.overlay (R.stream chance.old) (R.stream chance.new)) }
        ensures emptied { OnOk result (self.new.overlay ≡ fin.empty) }
        ensures err { OnErr result (AppliesNone S.Blocks.meanings S.applied self.old.store self.new.store (R.stream chance.old) (R.stream chance.new)) }
        ensures kept { KeepsChanges self.old result self.new }
        ensures counts { KeepsCounts S.Blocks.meanings self.old.store self.new.store }
        ensures spent { (result ≡ Err ApplyError.Spent) ↔ IsSpent S.Blocks.holdings self.old.store self.old.overlay }
    {
        let batch = self.overlay.take(alloc);
        match self.store.apply(alloc, &batch, chance) {
            Ok(()) => Ok(()),
            Err(error) => {
                self.overlay.give_back(batch);
                Err(error)
            }
        }
    }

    /// Forgets the changes.
    pub fn abandon(&mut self)
        requires { intact_in S.meanings S.holdings self.old }
        ensures intact { intact_in S.meanings S.holdings self.new }
        ensures store { self.new.store ≡ self.old.store }
        ensures seed { self.new.seed ≡ self.old.seed }
        ensures overlay { self.new.overlay ≡ fin.empty }
    {
        self.overlay.clear();
    }

    /// The store, without the changes.
    pub fn into_store(self) -> S
        ensures { result ≡ self.store }
    {
        let Tx {
            store,
            overlay,
            seed: _,
            ids,
        } = self;
        drop(overlay);
        drop(ids);
        store
    }
}

impl<S: Blocks> Blocks for Tx<S> {
    ghost meanings = { tx_meanings S.meanings S.holdings };

    ghost holdings = { tx_holdings S.holdings };

    ghost loads = { loads_over store_in changes_in S.loads };

    fn load(&mut self, alloc: Global, id: &BlockId) -> Result<Option<Vec<u8>>, Fail>
        requires { intact_in S.meanings S.holdings self.old }
        ensures outcome { Outcome (tx_meanings S.meanings S.holdings) Unit self.old self.new result (λ _ answer. bytes_of answer ≡ content_of S.holdings self.old id.now.0) }
        ensures stays { Stays (tx_holdings S.holdings) self.old self.new }
        ensures of_blocks { IfErr result IsOfBlocks }
        ensures none { IfOk result (λ answer. is_some answer ≡ is_some (content_of S.holdings self.old id.now.0)) }
        ensures sized { IfOk result (λ answer. IfSome answer (λ bytes. length bytes.items ≡ S.holdings.payload self.old.store)) }
        ensures loads { LoadsOver S.loads (fin.get self.old.overlay id.now.0) self.old.store self.new.store id.now.0 (answer_of result) }

        ensures leaves { LoadsBelow S.holdings self.old self.new }
    {
        match self.overlay.get(id) {
            Some(BatchChange::Payload(bytes)) => Ok(Some(bytes.as_slice().to_vec(alloc)?)),
            Some(BatchChange::Removal) => Ok(None),
            None => self.store.load(alloc, id),
        }
    }

    fn load_front(
        &mut self,
        alloc: Global,
        id: &BlockId,
        most: usize,
    ) -> Result<Option<Vec<u8>>, Fail>
        requires { intact_in S.meanings S.holdings self.old }
        ensures outcome { Outcome (tx_meanings S.meanings S.holdings) Unit self.old self.new result (λ _ answer. bytes_of answer ≡ front_of most (content_of S.holdings self.old id.now.0)) }
        ensures stays { Stays (tx_holdings S.holdings) self.old self.new }
        ensures of_blocks { IfErr result IsOfBlocks }
        ensures none { IfOk result (λ answer. is_some answer ≡ is_some (content_of S.holdings self.old id.now.0)) }
        ensures sized { IfOk result (λ answer. IfSome answer (λ bytes. length bytes.items ≡ min most (S.holdings.payload self.old.store))) }

        ensures leaves { LoadsBelow S.holdings self.old self.new }
    {
        match self.overlay.get(id) {
            Some(BatchChange::Payload(bytes)) => {
                let count = most.min(bytes.len());
                Ok(Some(bytes[..count].to_vec(alloc)?))
            }
            Some(BatchChange::Removal) => Ok(None),
            None => self.store.load_front(alloc, id, most),
        }
    }

    fn is_used(&self, id: &BlockId) -> bool {
        self.overlay.has(id) || self.store.is_used(id)
    }

    fn contains(&self, id: &BlockId) -> bool {
        match self.overlay.get(id) {
            Some(BatchChange::Payload(_)) => true,
            Some(BatchChange::Removal) => false,
            None => self.store.contains(id),
        }
    }

    fn fresh(&self, drawn: BlockId) -> BlockId {
        first_free(&self.store, &self.overlay, drawn)
    }

    fn payload(&self) -> usize {
        self.store.payload()
    }

    ghost lawful = { tx_laws S.meanings S.holdings S.lawful };

    ghost steady = { tx_steady S.meanings S.holdings S.steady };
}
