// What the writing anew begins with, and the store that it ends with.
ghost use Rattle.std.specs.Prelude.{◌≡◌, ◌⊎◌, ◌<◌, ℕ, List, [], true, false, take, IfOk, OnErr};
ghost use Rattle.std.specs.FinMap as fin;
ghost use Rattle.std.specs.declared.option.Option.{Option};
ghost use Rattle.block_id.specs.Formats.{magic};
ghost use Rattle.outside.specs.Causes.{GetHasCause};
ghost use Rattle.outside.specs.Trace.{Call, config, put, adds};
ghost use Rattle.integrity_store.specs.Made.{IsMadeOf, IsRecordedAs};
ghost use Rattle.integrity_store.specs.block_versions.Held.{wanted};
ghost use Rattle.integrity_store.specs.block_versions.Views.{held_of};
ghost use Rattle.integrity_store.specs.block_versions.local_state.Record.{HasRecord, plain_state};
ghost use Rattle.integrity_store.specs.sealed_store.Stores.{IsIntact, block_size_of, cipher_of};
ghost use Rattle.integrity_store.specs.store_api.Content.{SameContent};
ghost use Rattle.integrity_store.specs.store_api.Holdings.{IsFew};
ghost use Rattle.anew.specs.Begun.{IsBegun, HasNewClient};

use block_id::{BlockId, Memory};
use integrity_store::IntegrityStore;
use integrity_store::local_state::{Known, State};
use integrity_store::sealed_store::SealedStore;
use integrity_store::store_api::{Blocks, Durable};
use outside::{GetFail, Vault};
use seal_api::Sealer;
use std::alloc::Global;

/// Whose record it is to be: the file system, the salt and the digest of its key, and the client's number, from 1.
#[derive(Clone, Copy)]
pub struct Owner {
    pub fs_id: BlockId,
    pub key_salt: [u8; 32],
    pub key_digest: [u8; 32],
    pub client: u32,
}

/// A state that knows no block, has no mark, and takes no file of the older format.
fn empty_state(alloc: Global, owner: &Owner) -> State
    ensures { plain_state result ≡ record {
      marked = false;
      least = 2;
      fs_id = owner.now.fs_id.0;
      key_salt = owner.now.key_salt;
      key_digest = owner.now.key_digest;
      client = owner.now.client;
      lives = fin.empty;
    } }
{
    State {
        marked: false,
        least: 2,
        fs_id: owner.fs_id,
        key_salt: owner.key_salt,
        key_digest: owner.key_digest,
        client: owner.client,
        known: Known::new(alloc),
    }
}

/// Puts these bytes as the configuration's file, and gives the state of a client that knows no block. After a fault the file may
/// wait.
pub fn begin<V: Vault, C: Sealer>(
    alloc: Global,
    sealed: &mut SealedStore<V, C>,
    file: Vec<u8>,
    owner: &Owner,
) -> Result<State, GetFail>
    requires none { sealed.old.vault.list ≡ [] }
    ensures state { IfOk result (λ state. plain_state state ≡ record {
      marked = false;
      least = 2;
      fs_id = owner.now.fs_id.0;
      key_salt = owner.now.key_salt;
      key_digest = owner.now.key_digest;
      client = owner.now.client;
      lives = fin.empty;
    }) }
    ensures put { IfOk result (λ state. V.trace sealed.new.vault.vault ≡ adds (V.trace sealed.old.vault.vault) (put config file.items true)) }
    ensures begun { IfOk result (λ state. IsBegun (held_of C.opens sealed.new state) file.items (V.trace sealed.old.vault.vault) (V.trace sealed.new.vault.vault)) }
    ensures none { IfOk result (λ state. sealed.new.vault.list ≡ []) }
    ensures err { OnErr result ((V.trace sealed.new.vault.vault ≡ V.trace sealed.old.vault.vault)
        ⊎ (V.trace sealed.new.vault.vault ≡ adds (V.trace sealed.old.vault.vault) (put config file.items false))) }
    ensures same { sealed.new ≡ record sealed.old { vault = sealed.new.vault } }
    ensures cause { GetHasCause (V.faults sealed.old.vault.vault) (V.faults sealed.new.vault.vault) result }
{
    match sealed.put_config(alloc, file) {
        Ok(()) => {}
        Err(Memory) => return Err(GetFail::Memory),
    }
    match sealed.write_out(alloc) {
        Ok(()) => Ok(empty_state(alloc, owner)),
        Err(fail) => Err(fail),
    }
}

/// The store of what was written anew. It is sound where the client's number was new and each block that the state knows was
/// written so, whatever was put before.
pub fn finish<V: Vault, C: Sealer>(sealed: SealedStore<V, C>, state: State) -> IntegrityStore<V, C>
    requires intact { IsIntact (block_size_of sealed) (C.iv_size (cipher_of sealed)) }
    requires none { sealed.vault.list ≡ [] }
    requires client { 0 < state.client }
    requires least { state.least ≡ 2 }
    requires unmarked { state.marked ≡ false }
    ensures intact { ⟦<IntegrityStore<V, C> as Blocks>⟧.meanings.intact result }
    ensures few { IsFew (⟦<IntegrityStore<V, C> as Blocks>⟧.holdings.used result) }
    ensures has_record { HasRecord (plain_state state) [] }
    ensures made { IsMadeOf ⟦<IntegrityStore<V, C> as Blocks>⟧.meanings ⟦<IntegrityStore<V, C> as Blocks>⟧.holdings ⟦<IntegrityStore<V, C> as Durable>⟧.durables
        (held_of C.opens sealed state) (V.trace sealed.vault.vault) (V.faults sealed.vault.vault) result }
    ensures recorded { IsRecordedAs ⟦<IntegrityStore<V, C> as Durable>⟧.durables (held_of C.opens sealed state) result }
    ensures sound { (file : List ℕ) (before : Option (List Call)) → (take 14 file ≡ magic → ⊥) → HasNewClient (held_of C.opens sealed state) before
        → IsBegun (held_of C.opens sealed state) file before (V.trace sealed.vault.vault)
        → ⟦<IntegrityStore<V, C> as Blocks>⟧.meanings.sound result
        × SameContent (wanted (held_of C.opens sealed state) (V.trace sealed.vault.vault)) (⟦<IntegrityStore<V, C> as Blocks>⟧.holdings.content result) }
{
    // With its number read the known ids are known to fit a record.
    let _known = state.known.len();
    IntegrityStore::new(sealed, state)
}
