// A store of blocks with a cache.
ghost use Rattle.std.specs.Prelude.{◌≡◌, ◌≤◌, ◌↔◌, [], OnOk, OnErr, IfOk, IfErr, IfSome, length, is_some, min};
ghost use Rattle.std.specs.declared.result.Result.TheVariants.{Err};
ghost use Rattle.outside.specs.Causes.{GetHasCause};
ghost use Rattle.outside.specs.View.{bytes_of};
ghost use Rattle.store_api.specs.store_outcome.Meanings.{IsOfBlocks};
ghost use Rattle.store_api.specs.store_outcome.Outcome.{Outcome};
ghost use Rattle.lru.specs.LruCache.{lru_cache};
ghost use Rattle.store_api.specs.Applying.{Applies, AppliesNone, KeepsCounts};
ghost use Rattle.store_api.specs.Fronts.{front_of};
ghost use Rattle.store_api.specs.Leaving.{StaysMeant, WritesList, WrittenRecords, ListsConfig, ConfigRecords, SetsLeast};
ghost use Rattle.store_api.specs.Lists.{MayConfigure};
ghost use Rattle.store_api.specs.Durables.{MayBeLeast};
ghost use Rattle.store_api.specs.Holdings.{FitsStore, IsSpent, Stays};
ghost use Rattle.store_api.specs.Loads.{answer_of};
ghost use Rattle.block_cache.specs.Payloads.{AfterApply, AfterFront, AfterLoad, cached_for};
ghost use Rattle.block_cache.specs.Through.{FrontPast, LoadsPast, meanings_past, holdings_past, loads_past, durables_past, lawful_past, steady_past, stays_past, enduring_past};

use crate::payloads::{cache, renew_all};
use block_id::{BlockId, Fail, Memory};
use lru::LruCache;
use outside::GetFail;
use rand_core::Rng;
use std::alloc::Global;
use std::num::NonZeroUsize;
use store_api::{ApplyError, Batch, Blocks, BlocksMut, Durable};

/// A store with the payloads in memory that were loaded from it last.
pub struct BlockCache<S> {
    store: S,
    cached: LruCache<BlockId, Vec<u8>>,
}

impl<S: Blocks> BlockCache<S> {
    /// A cache of at most so many blocks over this store, with none so far. Where there is no memory for it, the store comes back.
    pub fn new(alloc: Global, store: S, capacity: usize) -> Result<BlockCache<S>, (Memory, S)>
        requires intact { S.meanings.intact store }
        requires capacity { 1 ≤ capacity }
        ensures intact { IfOk result (λ cache. ⟦<BlockCache<S> as Blocks>⟧.meanings.intact cache) }
        ensures store { IfOk result (λ cache. cache.store ≡ store) }
        ensures cached { IfOk result (λ cache. cache.cached ≡ lru_cache [] capacity) }
        ensures sound { IfOk result (λ cache. S.meanings.sound store → ⟦<BlockCache<S> as Blocks>⟧.meanings.sound cache) }
        ensures err { IfErr result (λ failed. failed.1 ≡ store) }
    {
        let blocks = NonZeroUsize::new(capacity).unwrap();
        match LruCache::sparse(alloc, blocks) {
            Ok(cached) => Ok(BlockCache { store, cached }),
            Err(_) => Err((Memory, store)),
        }
    }

    /// The store below.
    pub fn store(&self) -> &S
        ensures { result.now ≡ self.now.store }
    {
        &self.store
    }

    /// The payload of the id by a load of the store below, whatever is cached. What is cached stays.
    pub fn load_below(&mut self, alloc: Global, id: &BlockId) -> Result<Option<Vec<u8>>, Fail>
        requires { ⟦<BlockCache<S> as Blocks>⟧.meanings.intact self.old }
        ensures outcome { Outcome ⟦<BlockCache<S> as Blocks>⟧.meanings Unit self.old self.new result (λ _ answer. bytes_of answer ≡ ⟦<BlockCache<S> as Blocks>⟧.holdings.content self.old id.now.0) }
        ensures stays { Stays ⟦<BlockCache<S> as Blocks>⟧.holdings self.old self.new }
        ensures of_blocks { IfErr result IsOfBlocks }
        ensures none { IfOk result (λ answer. is_some answer ≡ is_some (⟦<BlockCache<S> as Blocks>⟧.holdings.content self.old id.now.0)) }
        ensures sized { IfOk result (λ answer. IfSome answer (λ bytes. length bytes.items ≡ ⟦<BlockCache<S> as Blocks>⟧.holdings.payload self.old)) }
        ensures loads { S.loads self.old.store self.new.store id.now.0 (answer_of result) }
        ensures cached { self.new.cached ≡ self.old.cached }
    {
        self.store.load(alloc, id)
    }

    /// The front of the id's payload by a load of the store below, whatever is cached. What is cached stays.
    pub fn load_front_below(
        &mut self,
        alloc: Global,
        id: &BlockId,
        most: usize,
    ) -> Result<Option<Vec<u8>>, Fail>
        requires { ⟦<BlockCache<S> as Blocks>⟧.meanings.intact self.old }
        ensures outcome { Outcome ⟦<BlockCache<S> as Blocks>⟧.meanings Unit self.old self.new result (λ _ answer. bytes_of answer ≡ front_of most (⟦<BlockCache<S> as Blocks>⟧.holdings.content self.old id.now.0)) }
        ensures stays { Stays ⟦<BlockCache<S> as Blocks>⟧.holdings self.old self.new }
        ensures of_blocks { IfErr result IsOfBlocks }
        ensures none { IfOk result (λ answer. is_some answer ≡ is_some (⟦<BlockCache<S> as Blocks>⟧.holdings.content self.old id.now.0)) }
        ensures sized { IfOk result (λ answer. IfSome answer (λ bytes. length bytes.items ≡ min most (⟦<BlockCache<S> as Blocks>⟧.holdings.payload self.old))) }
        ensures cached { self.new.cached ≡ self.old.cached }
    {
        self.store.load_front(alloc, id, most)
    }

    /// The store below, without the cache.
    pub fn into_store(self) -> S
        ensures { result ≡ self.store }
    {
        let BlockCache { store, cached } = self;
        drop(cached);
        store
    }
}

impl<S: Blocks> Blocks for BlockCache<S> {
    ghost meanings = { meanings_past (λ c. c.store) (λ c. c.cached) S.meanings S.holdings };

    ghost holdings = { holdings_past (λ c. c.store) S.holdings };

    ghost loads = { loads_past (λ c. c.store) (λ c. c.cached) S.loads };

    /// A cached payload is answered without a call on the store below.
    fn load(&mut self, alloc: Global, id: &BlockId) -> Result<Option<Vec<u8>>, Fail>
        requires { ⟦<BlockCache<S> as Blocks>⟧.meanings.intact self.old }
        ensures outcome { Outcome ⟦<BlockCache<S> as Blocks>⟧.meanings Unit self.old self.new result (λ _ answer. bytes_of answer ≡ ⟦<BlockCache<S> as Blocks>⟧.holdings.content self.old id.now.0) }
        ensures stays { Stays ⟦<BlockCache<S> as Blocks>⟧.holdings self.old self.new }
        ensures of_blocks { IfErr result IsOfBlocks }
        ensures none { IfOk result (λ answer. is_some answer ≡ is_some (⟦<BlockCache<S> as Blocks>⟧.holdings.content self.old id.now.0)) }
        ensures sized { IfOk result (λ answer. IfSome answer (λ bytes. length bytes.items ≡ ⟦<BlockCache<S> as Blocks>⟧.holdings.payload self.old)) }
        ensures loads { LoadsPast S.loads (cached_for self.old.cached id.now.0) self.old.store self.new.store id.now.0 (answer_of result) }

        ensures cached { AfterLoad (is_some (cached_for self.old.cached id.now.0)) id.now (answer_of result) self.old.cached self.new.cached }
    {
        if let Some(bytes) = self.cached.peek(id) {
            let payload = bytes.as_slice().to_vec(alloc)?;
            self.cached.promote(id);
            return Ok(Some(payload));
        }
        match self.store.load(alloc, id)? {
            Some(payload) => {
                cache(alloc, &mut self.cached, id, &payload);
                Ok(Some(payload))
            }
            None => Ok(None),
        }
    }

    /// A cached payload's front is answered without a call on the store below. A front of the store below isn't cached.
    fn load_front(
        &mut self,
        alloc: Global,
        id: &BlockId,
        most: usize,
    ) -> Result<Option<Vec<u8>>, Fail>
        requires { ⟦<BlockCache<S> as Blocks>⟧.meanings.intact self.old }
        ensures outcome { Outcome ⟦<BlockCache<S> as Blocks>⟧.meanings Unit self.old self.new result (λ _ answer. bytes_of answer ≡ front_of most (⟦<BlockCache<S> as Blocks>⟧.holdings.content self.old id.now.0)) }
        ensures stays { Stays ⟦<BlockCache<S> as Blocks>⟧.holdings self.old self.new }
        ensures of_blocks { IfErr result IsOfBlocks }
        ensures none { IfOk result (λ answer. is_some answer ≡ is_some (⟦<BlockCache<S> as Blocks>⟧.holdings.content self.old id.now.0)) }
        ensures sized { IfOk result (λ answer. IfSome answer (λ bytes. length bytes.items ≡ min most (⟦<BlockCache<S> as Blocks>⟧.holdings.payload self.old))) }

        ensures front { FrontPast most (cached_for self.old.cached id.now.0) self.old.store self.new.store (answer_of result) }
        ensures cached { AfterFront (is_some (cached_for self.old.cached id.now.0)) id.now (answer_of result) self.old.cached self.new.cached }
    {
        if let Some(bytes) = self.cached.peek(id) {
            let count = most.min(bytes.len());
            let front = bytes[..count].to_vec(alloc)?;
            self.cached.promote(id);
            return Ok(Some(front));
        }
        self.load_front_below(alloc, id, most)
    }

    fn is_used(&self, id: &BlockId) -> bool {
        self.store.is_used(id)
    }

    fn contains(&self, id: &BlockId) -> bool {
        self.store.contains(id)
    }

    fn fresh(&self, drawn: BlockId) -> BlockId {
        self.store.fresh(drawn)
    }

    fn payload(&self) -> usize {
        self.store.payload()
    }

    ghost lawful = { lawful_past (λ c. c.store) (λ c. c.cached) S.meanings S.holdings S.lawful };

    ghost steady = { steady_past (λ c. c.store) (λ c. c.cached) S.meanings S.holdings S.steady };
}

impl<S: BlocksMut> BlocksMut for BlockCache<S> {
    ghost applied = { λ a b changes. S.applied a.store b.store changes };

    ghost drawn = { λ a b changes stream left. S.drawn a.store b.store changes stream left };

    /// What was cached for a changed id is its new payload afterwards, or nothing.
    fn apply<R: Rng>(
        &mut self,
        alloc: Global,
        batch: &Batch,
        chance: &mut R,
    ) -> Result<(), ApplyError>
        requires intact { ⟦<BlockCache<S> as Blocks>⟧.meanings.intact self.old }
        requires fits { FitsStore ⟦<BlockCache<S> as Blocks>⟧.holdings self.old batch.now }
        ensures intact { ⟦<BlockCache<S> as Blocks>⟧.meanings.intact self.new }
        ensures ok { OnOk result (Applies ⟦<BlockCache<S> as Blocks>⟧.meanings ⟦<BlockCache<S> as Blocks>⟧.holdings (λ a b changes. S.applied a.store b.store changes) (λ a b changes stream left. S.drawn a.store b.store changes stream left) self.old self.new batch.now (R.stream chance.old) (R.stream chance.new)) }
        ensures err { OnErr result (AppliesNone ⟦<BlockCache<S> as Blocks>⟧.meanings (λ a b changes. S.applied a.store b.store changes) self.old self.new (R.stream chance.old) (R.stream chance.new)) }
        ensures counts { KeepsCounts ⟦<BlockCache<S> as Blocks>⟧.meanings self.old self.new }
        ensures spent { (result ≡ Err ApplyError.Spent) ↔ IsSpent ⟦<BlockCache<S> as Blocks>⟧.holdings self.old batch.now }

        ensures cached { AfterApply result batch.now self.old.cached self.new.cached }
    {
        match self.store.apply(alloc, batch, chance) {
            Ok(()) => {
                renew_all(alloc, &mut self.cached, batch);
                Ok(())
            }
            Err(error) => Err(error),
        }
    }

    ghost settled = { λ a b loaded. stays_past (λ c. c.store) S.Blocks.holdings a b (S.settled a.store b.store loaded) };
}

impl<S: Durable> Durable for BlockCache<S> {
    ghost durables = { durables_past (λ c. c.store) S.durables };

    ghost records = { S.records };

    fn buffered(&self) -> usize {
        self.store.buffered()
    }

    fn weight(&self) -> usize {
        self.store.weight()
    }

    fn state_bytes(&mut self, alloc: Global, with_list: bool) -> Result<Vec<u8>, Memory> {
        self.store.state_bytes(alloc, with_list)
    }

    fn put_config(&mut self, alloc: Global, bytes: Vec<u8>) -> Result<(), Memory>
        requires intact { ⟦<BlockCache<S> as Blocks>⟧.meanings.intact self.old }
        requires bytes { MayConfigure bytes.items }
        ensures lists { ListsConfig ⟦<BlockCache<S> as Blocks>⟧.meanings (durables_past (λ c. c.store) S.durables) bytes.items self.old self.new result }
        ensures keeps { ConfigRecords (durables_past (λ c. c.store) S.durables) S.records bytes.items self.old self.new result }
        ensures stays { Stays ⟦<BlockCache<S> as Blocks>⟧.holdings self.old self.new }
        ensures meant { StaysMeant ⟦<BlockCache<S> as Blocks>⟧.meanings self.old self.new }
        ensures faults { ⟦<BlockCache<S> as Blocks>⟧.meanings.faults self.new ≡ ⟦<BlockCache<S> as Blocks>⟧.meanings.faults self.old }

        ensures cached { self.new.cached ≡ self.old.cached }
    {
        self.store.put_config(alloc, bytes)
    }

    fn write_out(&mut self, alloc: Global) -> Result<(), GetFail>
        requires { ⟦<BlockCache<S> as Blocks>⟧.meanings.intact self.old }
        ensures writes { WritesList (durables_past (λ c. c.store) S.durables) self.old self.new result }
        ensures keeps { WrittenRecords ⟦<BlockCache<S> as Blocks>⟧.meanings ⟦<BlockCache<S> as Blocks>⟧.holdings (durables_past (λ c. c.store) S.durables) S.records self.old self.new }
        ensures stays { Stays ⟦<BlockCache<S> as Blocks>⟧.holdings self.old self.new }
        ensures meant { StaysMeant ⟦<BlockCache<S> as Blocks>⟧.meanings self.old self.new }
        ensures cause { GetHasCause (⟦<BlockCache<S> as Blocks>⟧.meanings.faults self.old) (⟦<BlockCache<S> as Blocks>⟧.meanings.faults self.new) result }

        ensures cached { self.new.cached ≡ self.old.cached }
    {
        self.store.write_out(alloc)
    }

    fn set_least(&mut self, least: u8)
        requires intact { ⟦<BlockCache<S> as Blocks>⟧.meanings.intact self.old }
        requires may { MayBeLeast S.durables S.Blocks.holdings self.old.store least }
        ensures sets { SetsLeast (durables_past (λ c. c.store) S.durables) S.records least self.old self.new }
        ensures stays { Stays ⟦<BlockCache<S> as Blocks>⟧.holdings self.old self.new }
        ensures meant { StaysMeant ⟦<BlockCache<S> as Blocks>⟧.meanings self.old self.new }
        ensures faults { ⟦<BlockCache<S> as Blocks>⟧.meanings.faults self.new ≡ ⟦<BlockCache<S> as Blocks>⟧.meanings.faults self.old }

        ensures cached { self.new.cached ≡ self.old.cached }
    {
        self.store.set_least(least);
    }

    ghost enduring = { enduring_past (λ c. c.store) (λ c. c.cached) S.Blocks.meanings S.Blocks.holdings S.applied S.durables S.records S.enduring };
}
