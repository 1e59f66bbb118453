// A store that counts the loads it is asked for, whole or of fronts.
ghost use Rattle.block_cache.specs.store_outcome.Lift.{lift_with, lawful_with};
ghost use Rattle.block_cache.specs.Through.{holdings_past, steady_with, stays_past};

use block_cache::store_api::{ApplyError, Batch, Blocks, BlocksMut};
use block_id::{BlockId, Fail};
use rand_core::Rng;
use std::alloc::Global;

#[derive(Drop)]
pub(crate) struct Counted<S> {
    pub(crate) store: S,
    pub(crate) loads: u64,
}

impl<S: Blocks> Blocks for Counted<S> {
    ghost meanings = { lift_with (λ c. c.store) (λ c. Unit {0}) (λ c. Unit {0}) S.meanings };

    ghost holdings = { holdings_past (λ c. c.store) S.holdings };

    ghost loads = { λ a b id answer. S.loads a.store b.store id answer };

    fn load(&mut self, alloc: Global, id: &BlockId) -> Result<Option<Vec<u8>>, Fail> {
        self.loads = self.loads.saturating_add(1);
        self.store.load(alloc, id)
    }

    fn load_front(
        &mut self,
        alloc: Global,
        id: &BlockId,
        most: usize,
    ) -> Result<Option<Vec<u8>>, Fail> {
        self.loads = self.loads.saturating_add(1);
        self.store.load_front(alloc, id, most)
    }

    fn is_used(&self, id: &BlockId) -> bool {
        self.store.is_used(id)
    }

    fn contains(&self, id: &BlockId) -> bool {
        self.store.contains(id)
    }

    fn fresh(&self, drawn: BlockId) -> BlockId {
        self.store.fresh(drawn)
    }

    fn payload(&self) -> usize {
        self.store.payload()
    }

    ghost lawful = { lawful_with (λ c. c.store) (λ c. Unit {0}) (λ c. Unit {0}) S.meanings S.lawful };

    ghost steady = { steady_with (λ c. c.store) (λ c. Unit {0}) (λ c. Unit {0}) S.meanings S.holdings S.steady };
}

impl<S: BlocksMut> BlocksMut for Counted<S> {
    ghost applied = { λ a b changes. S.applied a.store b.store changes };

    ghost drawn = { λ a b changes stream left. S.drawn a.store b.store changes stream left };

    fn apply<R: Rng>(
        &mut self,
        alloc: Global,
        batch: &Batch,
        chance: &mut R,
    ) -> Result<(), ApplyError> {
        self.store.apply(alloc, batch, chance)?;
        Ok(())
    }

    ghost settled = { λ a b loaded. stays_past (λ c. c.store) S.Blocks.holdings a b (S.settled a.store b.store loaded) };
}
