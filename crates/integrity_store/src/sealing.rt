// The drafts of a batch, each with an IV that is drawn for it.
ghost use Rattle.std.specs.Prelude.{◌≡◌, ◌<◌, false, IfOk, map};
ghost use Rattle.std.specs.declared.option.Option.TheVariants.{Some};
ghost use Rattle.std.specs.FinMap as fin;
ghost use Rattle.std.specs.List.{AllByRecursion};
ghost use Rattle.outside.specs.View.{change_of, list_of};
ghost use Rattle.outside.specs.Trace.{block};
ghost use Rattle.block_versions.specs.sealed_store.Drafts.{sealed_as, sealed_change, sealed_entry, MayBeDraft, AreDrafts};
ghost use Rattle.block_versions.specs.sealed_store.Stores.{IsIntact, block_size_of, key_of, cipher_of};
ghost use Rattle.store_api.specs.Draws.{IsLater};
ghost use Rattle.store_api.specs.Entries.{entry_view, entries_of};
ghost use Rattle.integrity_store.specs.Sealing.{MaySealAt, MaySeal, IsFileFor, IsMadeOf, stream_after, AreMadeOf};
ghost use Rattle.block_versions.specs.Views.{held_of};

use crate::zeros::write_front;
use block_id::{BlockId, Memory};
use block_versions::local_state::State;
use block_versions::sealed_store::SealedStore;
use outside::{Change, FileName, Pending, Vault};
use rand_core::Rng;
use seal_api::Sealer;
use std::alloc::Global;
use store_api::BatchChange;

/// The draft of the file of a payload's record. It takes no memory for the zeros that the payload ends with.
fn draft<V: Vault, C: Sealer, R: Rng>(
    alloc: Global,
    sealed: &SealedStore<V, C>,
    state: &State,
    id: &BlockId,
    payload: &[u8],
    chance: &mut R,
) -> Result<Vec<u8>, Memory>
    requires intact { IsIntact (block_size_of sealed.now) (C.iv_size (cipher_of sealed.now)) }
    requires client { 0 < state.now.client }
    requires may { MaySealAt (held_of C.opens sealed.now state.now) payload.now (fin.get state.now.known.lives id.now.0) }
    ensures draft { IfOk result (λ draft. MayBeDraft (block_size_of sealed.now) (block id.now.0) (Some draft.items)) }
    ensures file { IfOk result (λ draft. IsFileFor (held_of C.opens sealed.now state.now) id.now.0 payload.now (R.stream chance.old)
        (sealed_as (C.sealed (cipher_of sealed.now) (key_of sealed.now)) (block_size_of sealed.now) id.now.0 draft.items)) }
    ensures stream { IfOk result (λ _. R.stream chance.new ≡ stream_after (Some payload.now) (R.stream chance.old)) }
    ensures later { IsLater (R.stream chance.old) (R.stream chance.new) }
{
    let mut iv = [0; 16];
    chance.fill_bytes(&mut iv);
    let version = state.known.next_version(id);
    let front = write_front(alloc, id, state.client, version, payload)?;
    sealed.draft(front, &iv)
}

/// What waits for an entry: the draft of the file of its payload's record, or its removal.
fn draft_entry<V: Vault, C: Sealer, R: Rng>(
    alloc: Global,
    sealed: &SealedStore<V, C>,
    state: &State,
    entry: &(BlockId, BatchChange),
    chance: &mut R,
) -> Result<Change, Memory>
    requires intact { IsIntact (block_size_of sealed.now) (C.iv_size (cipher_of sealed.now)) }
    requires client { 0 < state.now.client }
    requires may { MaySeal (held_of C.opens sealed.now state.now) (entry_view entry.now) }
    ensures draft { IfOk result (λ change. MayBeDraft (block_size_of sealed.now) (block (entry_view entry.now).0) (change_of change)) }
    ensures change { IfOk result (λ change. IsMadeOf (held_of C.opens sealed.now state.now)
        (entry_view entry.now).0 (entry_view entry.now).1 (R.stream chance.old)
        (sealed_change (C.sealed (cipher_of sealed.now) (key_of sealed.now)) (block_size_of sealed.now) (block (entry_view entry.now).0) (change_of change))) }
    ensures stream { IfOk result (λ _. R.stream chance.new ≡ stream_after (entry_view entry.now).1 (R.stream chance.old)) }
    ensures later { IsLater (R.stream chance.old) (R.stream chance.new) }
{
    match &entry.1 {
        BatchChange::Payload(payload) => {
            let file = draft(alloc, sealed, state, &entry.0, payload, chance)?;
            Ok(Change::Bytes(file))
        }
        BatchChange::Removal => Ok(Change::Removal),
    }
}

/// What waits for each of the entries, in their order: the draft of the file of a payload at the next version of its id, for
/// which an IV of 16 bytes is drawn, or a removal. Fails only for want of memory.
pub fn draft_all<V: Vault, C: Sealer, R: Rng>(
    alloc: Global,
    sealed: &SealedStore<V, C>,
    state: &State,
    entries: &[(BlockId, BatchChange)],
    chance: &mut R,
) -> Result<Vec<Pending>, Memory>
    requires intact { IsIntact (block_size_of sealed.now) (C.iv_size (cipher_of sealed.now)) }
    requires client { 0 < state.now.client }
    requires may { AllByRecursion (MaySeal (held_of C.opens sealed.now state.now)) (entries_of entries.now) }
    ensures drafts { IfOk result (λ changes. AreDrafts (block_size_of sealed.now) (list_of changes.items)) }
    ensures made { IfOk result (λ changes. AreMadeOf (held_of C.opens sealed.now state.now) (entries_of entries.now) (R.stream chance.old)
        (map (sealed_entry (C.sealed (cipher_of sealed.now) (key_of sealed.now)) (block_size_of sealed.now)) (list_of changes.items)) (R.stream chance.new)) }
    ensures later { IsLater (R.stream chance.old) (R.stream chance.new) }
{
    let mut changes = Vec::new(alloc);
    for entry in entries {
        let change = draft_entry(alloc, sealed, state, entry, chance)?;
        changes.push(Pending {
            name: FileName::Block(entry.0),
            change,
        })?;
    }
    Ok(changes)
}
