// The store of blocks.
ghost use Rattle.std.specs.Prelude.{◌≡◌, ◌≤◌, IfOk, IfErr, IfSome, length, is_some, min};
ghost use Rattle.outside.specs.View.{bytes_of};
ghost use Rattle.block_versions.specs.store_outcome.Outcome.{Outcome};
ghost use Rattle.block_versions.specs.store_outcome.Meanings.{HasCause, IsOfBlocks, IsQuiet};
ghost use Rattle.outside.specs.Trace.{config};
ghost use Rattle.outside.specs.Changes.{change_at};
ghost use Rattle.local_state.specs.Record.{plain_state, HasRecord};
ghost use Rattle.store_api.specs.Fronts.{front_of};
ghost use Rattle.store_api.specs.Holdings.{IsFew, Stays};
ghost use Rattle.store_api.specs.Loads.{answer_of};
ghost use Rattle.block_versions.specs.sealed_store.Stores.{IsIntact, block_size_of, cipher_of};
ghost use Rattle.block_versions.specs.Loads.{FetchedFront, fetched_of, loads_by};
ghost use Rattle.block_versions.specs.Stores.{meanings_by, holdings_by, IsNoBlock};
ghost use Rattle.block_versions.specs.StoreLaws.{lawful_by, steady_by};
ghost use Rattle.block_versions.specs.Views.{held_of};
ghost use Rattle.integrity_store.specs.Made.{IsMadeOf, IsRecordedAs, IsSoundAs};
ghost use Rattle.integrity_store.specs.Views.{held_by};

use block_id::{BlockId, Fail};
use block_versions::sealed_store::SealedStore;
use block_versions::{HEAD_LEN, OVERHEAD, judge};
use local_state::State;
use outside::{GetFail, Vault};
use seal_api::Sealer;
use std::alloc::Global;
use store_api::{Blocks, Durable};

/// Payloads under ids in a directory of sealed files, with what the client knows of them. Each live block has a
/// version, by which an older or newer file is noticed.
#[derive(Drop)]
pub struct IntegrityStore<V, C: Sealer> {
    pub(crate) sealed: SealedStore<V, C>,
    pub(crate) state: State,
}

impl<V: Vault, C: Sealer> IntegrityStore<V, C> {
    /// A store over these files, of which a client knows this state.
    pub fn new(sealed: SealedStore<V, C>, state: State) -> IntegrityStore<V, C>
        requires sealed { IsIntact (block_size_of sealed) (C.iv_size (cipher_of sealed)) }
        requires state { HasRecord (plain_state state) sealed.vault.list }
        requires config { IsNoBlock (change_at config sealed.vault.list) }
        ensures intact { ⟦<IntegrityStore<V, C> as Blocks>⟧.meanings.intact result }
        ensures few { IsFew (⟦<IntegrityStore<V, C> as Blocks>⟧.holdings.used result) }
        ensures made { IsMadeOf ⟦<IntegrityStore<V, C> as Blocks>⟧.meanings ⟦<IntegrityStore<V, C> as Blocks>⟧.holdings ⟦<IntegrityStore<V, C> as Durable>⟧.durables
            (held_of C.opens sealed state) (V.trace sealed.vault.vault) (V.faults sealed.vault.vault) result }
        ensures recorded { IsRecordedAs ⟦<IntegrityStore<V, C> as Durable>⟧.durables (held_of C.opens sealed state) result }
        ensures sound { IsSoundAs ⟦<IntegrityStore<V, C> as Blocks>⟧.meanings ⟦<IntegrityStore<V, C> as Blocks>⟧.holdings ⟦<IntegrityStore<V, C> as Durable>⟧.durables
            ⟦<IntegrityStore<V, C> as Durable>⟧.records (held_of C.opens sealed state) result }
    {
        IntegrityStore { sealed, state }
    }

    /// What the client knows.
    pub fn state(&self) -> &State
        ensures { result.now ≡ self.now.state }
    {
        &self.state
    }

    /// The directory, without the unwritten list.
    pub fn into_vault(self) -> V
    where
        C: Drop,
        ensures vault { result ≡ self.sealed.vault.vault }
        ensures trace { V.trace result ≡ ⟦<IntegrityStore<V, C> as Durable>⟧.durables.trace self }
        ensures faults { V.faults result ≡ ⟦<IntegrityStore<V, C> as Blocks>⟧.meanings.faults self }
    {
        let IntegrityStore { sealed, state } = self;
        drop(state);
        sealed.into_vault()
    }

    /// The first bytes of a live id's payload, at most so many, which was judged whole at its version.
    fn fetch(
        &mut self,
        alloc: Global,
        id: &BlockId,
        known: u64,
        most: usize,
    ) -> Result<Vec<u8>, Fail>
        requires { ⟦<IntegrityStore<V, C> as Blocks>⟧.meanings.intact self.old }
        ensures fetched { FetchedFront (held_by C.opens self.old) (V.trace self.old.sealed.vault.vault) (V.trace self.new.sealed.vault.vault) id.now.0 known most (fetched_of result) }
        ensures held { held_by C.opens self.new ≡ held_by C.opens self.old }
        ensures intact { ⟦<IntegrityStore<V, C> as Blocks>⟧.meanings.intact self.new }
        ensures faults { V.faults self.old.sealed.vault.vault ≤ V.faults self.new.sealed.vault.vault }
        ensures quiet { IsQuiet result (V.faults self.old.sealed.vault.vault) (V.faults self.new.sealed.vault.vault) }
        ensures cause { IfErr result (λ e. HasCause e (V.faults self.old.sealed.vault.vault) (V.faults self.new.sealed.vault.vault)) }
    {
        let opened = most.saturating_add(HEAD_LEN);
        match self.sealed.get_plain(alloc, id, self.state.least, opened) {
            Ok(seen) => judge(id, self.state.client, known, seen).map_err(Fail::Violation),
            Err(GetFail::Memory) => Err(Fail::Memory),
            Err(GetFail::Failed) => Err(Fail::Fault),
        }
    }
}

impl<V: Vault, C: Sealer> Blocks for IntegrityStore<V, C> {
    ghost meanings = { meanings_by (held_by C.opens) (λ s. V.trace s.sealed.vault.vault)
        (λ s. V.faults s.sealed.vault.vault) (λ s. IsIntact (block_size_of s.sealed) (C.iv_size (cipher_of s.sealed))) };

    ghost holdings = { holdings_by (held_by C.opens) (λ s. V.trace s.sealed.vault.vault) };

    ghost loads = { loads_by (held_by C.opens) (λ s. V.trace s.sealed.vault.vault) };

    fn load(&mut self, alloc: Global, id: &BlockId) -> Result<Option<Vec<u8>>, Fail>
        requires { ⟦<IntegrityStore<V, C> as Blocks>⟧.meanings.intact self.old }
        ensures outcome { Outcome ⟦<IntegrityStore<V, C> as Blocks>⟧.meanings Unit self.old self.new result (λ _ answer. bytes_of answer ≡ ⟦<IntegrityStore<V, C> as Blocks>⟧.holdings.content self.old id.now.0) }
        ensures stays { Stays ⟦<IntegrityStore<V, C> as Blocks>⟧.holdings self.old self.new }
        ensures of_blocks { IfErr result IsOfBlocks }
        ensures none { IfOk result (λ answer. is_some answer ≡ is_some (⟦<IntegrityStore<V, C> as Blocks>⟧.holdings.content self.old id.now.0)) }
        ensures sized { IfOk result (λ answer. IfSome answer (λ bytes. length bytes.items ≡ ⟦<IntegrityStore<V, C> as Blocks>⟧.holdings.payload self.old)) }
        ensures loads { loads_by (held_by C.opens) (λ s. V.trace s.sealed.vault.vault) self.old self.new id.now.0 (answer_of result) }
    {
        match self.state.known.live_version(id) {
            None => Ok(None),
            Some(known) => match self.fetch(alloc, id, known, usize::MAX) {
                Ok(payload) => Ok(Some(payload)),
                Err(fail) => Err(fail),
            },
        }
    }

    fn load_front(
        &mut self,
        alloc: Global,
        id: &BlockId,
        most: usize,
    ) -> Result<Option<Vec<u8>>, Fail>
        requires { ⟦<IntegrityStore<V, C> as Blocks>⟧.meanings.intact self.old }
        ensures outcome { Outcome ⟦<IntegrityStore<V, C> as Blocks>⟧.meanings Unit self.old self.new result (λ _ answer. bytes_of answer ≡ front_of most (⟦<IntegrityStore<V, C> as Blocks>⟧.holdings.content self.old id.now.0)) }
        ensures stays { Stays ⟦<IntegrityStore<V, C> as Blocks>⟧.holdings self.old self.new }
        ensures of_blocks { IfErr result IsOfBlocks }
        ensures none { IfOk result (λ answer. is_some answer ≡ is_some (⟦<IntegrityStore<V, C> as Blocks>⟧.holdings.content self.old id.now.0)) }
        ensures sized { IfOk result (λ answer. IfSome answer (λ bytes. length bytes.items ≡ min most (⟦<IntegrityStore<V, C> as Blocks>⟧.holdings.payload self.old))) }
    {
        match self.state.known.live_version(id) {
            None => Ok(None),
            Some(known) => match self.fetch(alloc, id, known, most) {
                Ok(front) => Ok(Some(front)),
                Err(fail) => Err(fail),
            },
        }
    }

    fn is_used(&self, id: &BlockId) -> bool {
        self.state.known.is_used(id)
    }

    fn contains(&self, id: &BlockId) -> bool {
        self.state.known.is_live(id)
    }

    fn fresh(&self, drawn: BlockId) -> BlockId {
        self.state.known.fresh(drawn)
    }

    fn payload(&self) -> usize {
        self.sealed.block_size().saturating_sub(OVERHEAD)
    }

    ghost lawful = { lawful_by (held_by C.opens) (λ s. V.trace s.sealed.vault.vault)
        (λ s. V.faults s.sealed.vault.vault) (λ s. IsIntact (block_size_of s.sealed) (C.iv_size (cipher_of s.sealed))) };

    ghost steady = { steady_by (held_by C.opens) (λ s. V.trace s.sealed.vault.vault)
        (λ s. V.faults s.sealed.vault.vault) (λ s. IsIntact (block_size_of s.sealed) (C.iv_size (cipher_of s.sealed))) };
}
