// A batch of changes, made in memory.
ghost use Rattle.std.specs.Prelude.{◌≡◌, ◌↔◌, length, OnOk, OnErr};
ghost use Rattle.std.specs.declared.result.Result.TheVariants.{Err};
ghost use Rattle.std.specs.List.{AllByRecursion};
ghost use Rattle.block_versions.specs.sealed_store.Stores.{IsIntact, block_size_of, key_of, cipher_of};
ghost use Rattle.store_api.specs.Entries.{entries_of};
ghost use Rattle.store_api.specs.Applying.{Applies, AppliesNone, KeepsCounts};
ghost use Rattle.store_api.specs.Draws.{IsLater};
ghost use Rattle.store_api.specs.Holdings.{FitsStore, IsSpent};
ghost use Rattle.integrity_store.specs.Applied.{applied_by};
ghost use Rattle.integrity_store.specs.Draws.{AreDrawn};
ghost use Rattle.integrity_store.specs.Raising.{count_new_in};
ghost use Rattle.integrity_store.specs.Sealing.{MaySeal, IsListed};
ghost use Rattle.block_versions.specs.StoreLaws.{settled_by};
ghost use Rattle.integrity_store.specs.Views.{HasRoom, held_by};

use crate::{IntegrityStore, count_new, draft_all, raise_or_bury_all, some_spent};
use block_id::{BlockId, Memory};
use outside::Vault;
use rand_core::Rng;
use seal_api::Sealer;
use std::alloc::Global;
use store_api::{ApplyError, Batch, BatchChange, Blocks, BlocksMut};

impl<V: Vault, C: Sealer> IntegrityStore<V, C> {
    /// Has the files and removals of the entries wait, and takes the memory for their new ids. A file is sealed later.
    fn put_drafts<R: Rng>(
        &mut self,
        alloc: Global,
        entries: &[(BlockId, BatchChange)],
        chance: &mut R,
    ) -> Result<(), Memory>
        requires intact { ⟦<IntegrityStore<V, C> as Blocks>⟧.meanings.intact self.old }
        requires may { AllByRecursion (MaySeal (held_by C.opens self.old)) (entries_of entries.now) }
        ensures intact { IsIntact (block_size_of self.new.sealed) (C.iv_size (cipher_of self.new.sealed)) }
        ensures vault { self.new.sealed.vault.vault ≡ self.old.sealed.vault.vault }
        ensures room { HasRoom result (count_new_in self.new.state.known.lives (entries_of entries.now))
            self.new.state.known.spare (length self.new.sealed.vault.list) }
        ensures listed { OnOk result (IsListed (held_by C.opens self.old)
            (held_by C.opens self.new) (entries_of entries.now) (R.stream chance.old) (R.stream chance.new)) }
        ensures later { IsLater (R.stream chance.old) (R.stream chance.new) }
        ensures held { OnErr result (held_by C.opens self.new
            ≡ held_by C.opens self.old) }
    {
        let new_ids = count_new(&self.state.known, entries);
        self.state.known.reserve(new_ids)?;
        let changes = draft_all(alloc, &self.sealed, &self.state, entries, chance)?;
        self.sealed.put_drafts(changes)
    }
}

impl<V: Vault, C: Sealer> BlocksMut for IntegrityStore<V, C> {
    ghost applied = { applied_by (held_by C.opens) (λ s. V.trace s.sealed.vault.vault) };

    ghost drawn = { λ a b changes stream left. AreDrawn changes (held_by C.opens b).list stream left };

    /// The IV of each payload's file is drawn by one fill of 16 bytes, by rising ids.
    fn apply<R: Rng>(
        &mut self,
        alloc: Global,
        batch: &Batch,
        chance: &mut R,
    ) -> Result<(), ApplyError>
        requires intact { ⟦<IntegrityStore<V, C> as Blocks>⟧.meanings.intact self.old }
        requires fits { FitsStore ⟦<IntegrityStore<V, C> as Blocks>⟧.holdings self.old batch.now }
        ensures intact { ⟦<IntegrityStore<V, C> as Blocks>⟧.meanings.intact self.new }
        ensures ok { OnOk result (Applies ⟦<IntegrityStore<V, C> as Blocks>⟧.meanings ⟦<IntegrityStore<V, C> as Blocks>⟧.holdings
            (applied_by (held_by C.opens) (λ s. V.trace s.sealed.vault.vault)) (λ a b changes stream left. AreDrawn changes (held_by C.opens b).list stream left)
            self.old self.new batch.now (R.stream chance.old) (R.stream chance.new)) }
        ensures err { OnErr result (AppliesNone ⟦<IntegrityStore<V, C> as Blocks>⟧.meanings (applied_by (held_by C.opens) (λ s. V.trace s.sealed.vault.vault))
            self.old self.new (R.stream chance.old) (R.stream chance.new)) }
        ensures counts { KeepsCounts ⟦<IntegrityStore<V, C> as Blocks>⟧.meanings self.old self.new }
        ensures spent { (result ≡ Err ApplyError.Spent) ↔ IsSpent ⟦<IntegrityStore<V, C> as Blocks>⟧.holdings self.old batch.now }
    {
        let entries = batch.entries();
        if some_spent(&self.state.known, entries) {
            return Err(ApplyError::Spent);
        }
        match self.put_drafts(alloc, entries, chance) {
            Ok(()) => {
                raise_or_bury_all(&mut self.state.known, entries);
                // With their number read, the used ids are known to be few enough for a record.
                let _used = self.state.known.len();
                Ok(())
            }
            Err(Memory) => Err(ApplyError::Memory),
        }
    }

    ghost settled = { settled_by (held_by C.opens) (λ s. V.trace s.sealed.vault.vault)
        (λ s. V.faults s.sealed.vault.vault) };
}
