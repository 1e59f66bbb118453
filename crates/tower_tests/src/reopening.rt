// A payload that is put, synced, and loaded by the store that is opened anew from what was kept.
ghost use Rattle.std.specs.Prelude.{◌≡◌, ◌≤◌, Some, true, false, length, IfOk};
ghost use Rattle.std.specs.FinMap as fin;
ghost use Rattle.block_id.specs.declared.sizes.TheConstants.{MIN_BLOCK, MAX_BLOCK};
ghost use Rattle.outside.specs.Changes.{change_at};
ghost use Rattle.outside.specs.Honest.{count_told};
ghost use Rattle.outside.specs.Trace.{config};
ghost use Rattle.outside.specs.View.{bytes_of, list_of};
ghost use Rattle.record_saver.specs.store_api.Content.{Content, SameContent, over};
ghost use Rattle.record_saver.specs.store_api.Durables.{Identity};
ghost use Rattle.record_saver.specs.store_api.Holdings.{IsFew};
ghost use Rattle.record_saver.specs.Saving.{RepresentsContent};
ghost use Rattle.integrity_store.specs.block_versions.Forgeries.{forged};
ghost use Rattle.integrity_store.specs.block_versions.Standing.{Stands};
ghost use Rattle.integrity_store.specs.block_versions.Stores.{IsNoBlock};

use block_id::BlockId;
use integrity_store::IntegrityStore;
use integrity_store::redo_vault::RedoVault;
use integrity_store::sealed_store::SealedStore;
use memory_stores::put_one;
use outside::{Change, FileName, Keeper, Pending, Vault};
use rand_core::Rng;
use record_saver::Saver;
use record_saver::local_state::decode;
use record_saver::store_api::{Blocks, Durable};
use seal_api::Sealer;
use std::alloc::Global;
use std::test::Fail;

/// Has an id get a payload, and syncs.
fn put_and_sync<S: Durable + Drop, K: Keeper + Drop, R: Rng>(
    alloc: Global,
    store: S,
    saver: Saver<K>,
    id: &BlockId,
    payload: Vec<u8>,
    chance: &mut R,
) -> Result<(S, K), Fail>
    requires intact { S.Durable.meanings.intact store }
    requires few { IsFew (S.Durable.holdings.used store) }
    requires room { length saver.last.items ≤ K.room saver.keeper }
    requires sound { S.Durable.meanings.sound store }
    requires unmarked { (S.durables.identity store).marked ≡ false }
    ensures identity { IfOk result (λ end. S.durables.identity end.0 ≡ S.durables.identity store) }
    ensures forgeries { IfOk result (λ end. S.Durable.meanings.forgeries end.0 ≡ S.Durable.meanings.forgeries store) }
    ensures kept { IfOk result (λ end. RepresentsContent S.records (S.durables.identity store) (K.kept end.1) (S.durables.trace end.0)
        (over (fin.insert fin.empty id.now.0 (Some payload.items)) (S.Durable.holdings.content store))) }
{
    let Saver {
        keeper,
        last,
        changed: _,
    } = saver;
    let mut after = store;
    let put = put_one(alloc, &mut after, id, payload, chance);
    let mut saver = Saver {
        keeper,
        last,
        changed: true,
    };
    let synced = saver.sync(alloc, &mut after);
    let Saver {
        keeper,
        last: _,
        changed: _,
    } = saver;
    put?;
    match synced {
        Ok(()) => Ok((after, keeper)),
        Err(_) => Err("no sync".into()),
    }
}

/// Whether what waits as the configuration begins as no block's file.
fn is_no_block(list: &[Pending]) -> bool
    ensures { result ≡ true → IsNoBlock (change_at config (list_of list.now)) }
{
    match pending_list::lookup(list, &FileName::Config) {
        Some(Change::Bytes(bytes)) => !bytes.starts_with(b"cryfs;block;0\0"),
        Some(Change::Removal) => true,
        None => true,
    }
}

/// What the files are sealed with, and their size.
#[derive(Drop)]
pub struct Seal<C> {
    pub cipher: C,
    pub key: [u8; 32],
    pub block_size: usize,
}

/// The store that a record is of.
pub fn reopen<V: Vault + Drop, C: Sealer + Drop>(
    alloc: Global,
    vault: V,
    seal: Seal<C>,
    kept: &[u8],
) -> Result<IntegrityStore<V, C>, Fail>
    requires size { (MIN_BLOCK ≤ seal.block_size) × (seal.block_size ≤ MAX_BLOCK) }
    requires iv { C.iv_size seal.cipher ≡ 16 }
    ensures intact { IfOk result (λ store. ⟦<IntegrityStore<V, C> as Blocks>⟧.meanings.intact store) }
    ensures few { IfOk result (λ store. IsFew (⟦<IntegrityStore<V, C> as Blocks>⟧.holdings.used store)) }
    ensures forgeries { IfOk result (λ store. ⟦<IntegrityStore<V, C> as Blocks>⟧.meanings.forgeries store
        ≡ count_told (forged (C.opens seal.cipher seal.key) seal.block_size) (V.trace vault)) }
    ensures opened { IfOk result (λ store. (identity : Identity) (content : Content) → identity.opens ≡ C.opens seal.cipher seal.key → identity.size ≡ seal.block_size
        → Stands identity kept.now (V.trace vault) content
        → ⟦<IntegrityStore<V, C> as Blocks>⟧.meanings.sound store × SameContent content (⟦<IntegrityStore<V, C> as Blocks>⟧.holdings.content store)) }
{
    let Ok((state, list)) = decode(alloc, kept) else {
        return Err("no record".into());
    };
    if !is_no_block(&list) {
        return Err("a block as the configuration".into());
    }
    let Seal {
        cipher,
        key,
        block_size,
    } = seal;
    let sealed = SealedStore::new(RedoVault::new(vault, list), cipher, key, block_size);
    Ok(IntegrityStore::new(sealed, state))
}

/// The store that was opened anew, the keeper, and what the load answered.
pub struct Reopened<V, C: Sealer, K> {
    pub store: IntegrityStore<V, C>,
    pub keeper: K,
    pub answer: Option<Vec<u8>>,
}

/// Has an id get a payload, syncs, opens the store anew from what is kept, and loads the id. If no file came that
/// opens and was never put, that is the payload.
pub fn put_reopen_load<V: Vault + Drop, C: Sealer + Drop, K: Keeper + Drop, R: Rng>(
    alloc: Global,
    store: IntegrityStore<V, C>,
    saver: Saver<K>,
    seal: Seal<C>,
    id: &BlockId,
    payload: Vec<u8>,
    chance: &mut R,
) -> Result<Reopened<V, C, K>, Fail>
    requires iv { C.iv_size seal.cipher ≡ 16 }
    requires intact { ⟦<IntegrityStore<V, C> as Blocks>⟧.meanings.intact store }
    requires few { IsFew (⟦<IntegrityStore<V, C> as Blocks>⟧.holdings.used store) }
    requires room { length saver.last.items ≤ K.room saver.keeper }
    requires sound { ⟦<IntegrityStore<V, C> as Blocks>⟧.meanings.sound store }
    requires unmarked { (⟦<IntegrityStore<V, C> as Durable>⟧.durables.identity store).marked ≡ false }
    requires sealed { ((⟦<IntegrityStore<V, C> as Durable>⟧.durables.identity store).opens ≡ C.opens seal.cipher seal.key)
        × ((⟦<IntegrityStore<V, C> as Durable>⟧.durables.identity store).size ≡ seal.block_size) }
    ensures loads { IfOk result (λ end. ⟦<IntegrityStore<V, C> as Blocks>⟧.meanings.forgeries end.store ≤ ⟦<IntegrityStore<V, C> as Blocks>⟧.meanings.forgeries store
        → bytes_of end.answer ≡ Some payload.items) }
{
    let (store, mut keeper) = put_and_sync(alloc, store, saver, id, payload, chance)?;
    let vault = store.into_vault();
    let Some(record) = keeper.load(alloc)? else {
        return Err("nothing is kept".into());
    };
    let mut store = reopen(alloc, vault, seal, &record)?;
    let answer = store.load(alloc, id)?;
    Ok(Reopened {
        store,
        keeper,
        answer,
    })
}
