// One block, written anew.
ghost use Rattle.std.specs.Prelude.{◌≡◌, ◌≢◌, ◌⊎◌, ◌<◌, ◌+◌, [], ◌∷◌, false, length, IfOk, OnOk, OnErr};
ghost use Rattle.std.specs.declared.option.Option.TheVariants.{Some};
ghost use Rattle.outside.specs.Trace.{block};
ghost use Rattle.outside.specs.View.{list_of};
ghost use Rattle.outside.specs.Causes.{GetHasCause};
ghost use Rattle.block_id.specs.Fresh.{zero_id};
ghost use Rattle.rand_core.specs.Stream.{fill_bytes};
ghost use Rattle.integrity_store.specs.block_versions.Views.{held_of};
ghost use Rattle.integrity_store.specs.sealed_store.Stores.{IsIntact, block_size_of, cipher_of};
ghost use Rattle.anew.specs.Writing.{ListsFirst, PutsFirst, Renews};

use block_id::{BlockId, Memory};
use integrity_store::block_versions::write_record;
use integrity_store::local_state::State;
use integrity_store::sealed_store::SealedStore;
use outside::{Change, FileName, GetFail, Pending, Vault};
use rand_core::Rng;
use seal_api::Sealer;
use std::alloc::Global;

/// The file of this draft, as the one change.
fn one_draft(alloc: Global, id: &BlockId, draft: Vec<u8>) -> Result<Vec<Pending>, Memory>
    ensures { IfOk result (λ changes. list_of changes.items ≡ (block id.now.0, Some draft.items) ∷ []) }
{
    let mut changes = Vec::new(alloc);
    changes.push(Pending {
        name: FileName::Block(*id),
        change: Change::Bytes(draft),
    })?;
    Ok(changes)
}

/// Has the block's file wait: the record of this payload at version 1 of the state's client, sealed with this IV.
fn list_block<V: Vault, C: Sealer>(
    alloc: Global,
    sealed: &mut SealedStore<V, C>,
    state: &State,
    id: &BlockId,
    payload: &[u8],
    iv: &[u8; 16],
) -> Result<(), Memory>
    requires intact { IsIntact (block_size_of sealed.old) (C.iv_size (cipher_of sealed.old)) }
    requires client { 0 < state.now.client }
    requires sized { length payload.now + 78 ≡ block_size_of sealed.old }
    requires none { sealed.old.vault.list ≡ [] }
    ensures lists { OnOk result (ListsFirst (held_of C.opens sealed.old state.now) id.now.0 payload.now iv.now sealed.new.vault.list) }
    ensures err { OnErr result (sealed.new ≡ sealed.old) }
    ensures vault { sealed.new.vault.vault ≡ sealed.old.vault.vault }
    ensures same { sealed.new ≡ record sealed.old { vault = sealed.new.vault } }
{
    let plain = write_record(alloc, id, state.client, 1, payload)?;
    let draft = sealed.draft(plain, iv)?;
    let changes = one_draft(alloc, id, draft)?;
    sealed.put_drafts(changes)
}

/// Seals this payload as the block's record at version 1 of the state's client, with an IV of 16 bytes that is drawn for it, puts
/// its file, and has the state know the block. After a fault the file may wait.
pub fn renew<V: Vault, C: Sealer, R: Rng>(
    alloc: Global,
    sealed: &mut SealedStore<V, C>,
    state: &mut State,
    id: &BlockId,
    payload: &[u8],
    chance: &mut R,
) -> Result<(), GetFail>
    requires intact { IsIntact (block_size_of sealed.old) (C.iv_size (cipher_of sealed.old)) }
    requires client { 0 < state.old.client }
    requires sized { length payload.now + 78 ≡ block_size_of sealed.old }
    requires none { sealed.old.vault.list ≡ [] }
    requires not_zero { id.now.0 ≢ zero_id }
    ensures renews { OnOk result (Renews (held_of C.opens sealed.old state.old) (held_of C.opens sealed.new state.new) id.now.0 payload.now
        (fill_bytes 16 (R.stream chance.old)).0 (V.trace sealed.old.vault.vault) (V.trace sealed.new.vault.vault)) }
    ensures err { OnErr result ((V.trace sealed.new.vault.vault ≡ V.trace sealed.old.vault.vault)
        ⊎ PutsFirst (held_of C.opens sealed.old state.old) id.now.0 payload.now (fill_bytes 16 (R.stream chance.old)).0 (V.trace sealed.old.vault.vault) (V.trace sealed.new.vault.vault) false) }
    ensures drawn { R.stream chance.new ≡ (fill_bytes 16 (R.stream chance.old)).1 }
    ensures same { sealed.new ≡ record sealed.old { vault = sealed.new.vault } }
    ensures lives { OnErr result (state.new.known.lives ≡ state.old.known.lives) }
    ensures cause { GetHasCause (V.faults sealed.old.vault.vault) (V.faults sealed.new.vault.vault) result }
{
    let mut iv = [0; 16];
    chance.fill_bytes(&mut iv);
    match state.known.reserve(1) {
        Ok(()) => {}
        Err(Memory) => return Err(GetFail::Memory),
    }
    match list_block(alloc, sealed, state, id, payload, &iv) {
        Ok(()) => {}
        Err(Memory) => return Err(GetFail::Memory),
    }
    match sealed.write_out(alloc) {
        Ok(()) => {}
        Err(fail) => return Err(fail),
    }
    state.known.put(id, 1, true);
    Ok(())
}
