// A file system in sealed blocks of 128 bytes over a directory in memory, and lines on it.
ghost use Rattle.std.specs.Prelude.{◌≡◌, [], IfOk};
ghost use Rattle.integrity_store.specs.sealed_store.Stores.{IsIntact, block_size_of, cipher_of};
ghost use Rattle.memory_stores.specs.store_api.Holdings.{IsFew};
ghost use Rattle.memory_stores.specs.store_api.Txs.{intact_in};

use crate::site::{parsed, text_of};
use aes_gcm::Aes256Gcm;
use block_id::BlockId;
use fs_model::{Command, Moment, Reply};
use integrity_store::IntegrityStore;
use integrity_store::local_state::{Known, State, decode, encode};
use integrity_store::redo_vault::RedoVault;
use integrity_store::sealed_store::SealedStore;
use memory_outside::MemoryVault;
use memory_stores::put_one;
use memory_stores::store_api::{Blocks, BlocksMut, Tx};
use path_layer::blob_store::BlobStore;
use path_layer::{empty_root, perform};
use rand_pcg::Pcg32;
use seal_api::Sealer;
use std::alloc::Global;
use std::test::Fail;

/// Sealed blocks over a directory in memory.
pub type Store = IntegrityStore<MemoryVault, Aes256Gcm>;

/// The record of client 1 that knows no block.
fn empty_record(alloc: Global) -> Result<Vec<u8>, Fail> {
    let state = State {
        marked: false,
        least: 2,
        fs_id: BlockId([0x11; 16]),
        key_salt: [0x11; 32],
        key_digest: [0x11; 32],
        client: 1,
        known: Known::new(alloc),
    };
    Ok(encode(alloc, &state, &[])?)
}

/// Blocks of 128 bytes over an empty directory, with nothing unwritten.
fn sealed_over(alloc: Global) -> SealedStore<MemoryVault, Aes256Gcm>
    ensures intact { IsIntact (block_size_of result) (⟦<Aes256Gcm as Sealer>⟧.iv_size (cipher_of result)) }
    ensures size { block_size_of result ≡ 128 }
    ensures list { result.vault.list ≡ [] }
{
    let redo = RedoVault::new(MemoryVault::new(alloc), Vec::new(alloc));
    SealedStore::new(redo, Aes256Gcm, [3; 32], 128)
}

/// A store that knows no block.
pub fn empty_store(alloc: Global) -> Result<Store, Fail>
    ensures intact { IfOk result (λ store. ⟦<Store as Blocks>⟧.meanings.intact store) }
    ensures few { IfOk result (λ store. IsFew (⟦<Store as Blocks>⟧.holdings.used store)) }
{
    let record = empty_record(alloc)?;
    let (state, list) = decode(alloc, &record)?;
    if !list.is_empty() {
        return Err("a list".into());
    }
    Ok(IntegrityStore::new(sealed_over(alloc), state))
}

/// The root's id.
pub const ROOT: BlockId = BlockId([7; 16]);

/// The store with the root of the empty tree.
pub fn rooted<S: BlocksMut + Drop>(alloc: Global, mut store: S) -> Result<S, Fail>
    requires intact { S.Blocks.meanings.intact store }
    requires few { IsFew (S.Blocks.holdings.used store) }
    ensures intact { IfOk result (λ made. S.Blocks.meanings.intact made) }
    ensures few { IfOk result (λ made. IsFew (S.Blocks.holdings.used made)) }
{
    let root = empty_root(alloc, 50)?;
    put_one(alloc, &mut store, &ROOT, root, &mut Pcg32::new(5, 6))?;
    Ok(store)
}

/// The reply to a command that fits.
fn replied<S: BlocksMut>(
    alloc: Global,
    blobs: &mut BlobStore<S>,
    command: &Command,
) -> Result<Reply, Fail>
    requires { intact_in S.Blocks.meanings S.Blocks.holdings blobs.old.tx }
    ensures { intact_in S.Blocks.meanings S.Blocks.holdings blobs.new.tx }
{
    let now = Moment::new(100, 5).ok_or("nanos")?;
    if !command.fits() {
        return Err("a command that fits".into());
    }
    match perform(alloc, blobs, &ROOT, now, command) {
        Ok(reply) => Ok(reply),
        Err(_) => Err("a command that failed".into()),
    }
}

/// The text of the reply to a command.
fn text_told<S: BlocksMut>(
    alloc: Global,
    blobs: &mut BlobStore<S>,
    command: &Command,
) -> Result<String, Fail>
    requires { intact_in S.Blocks.meanings S.Blocks.holdings blobs.old.tx }
    ensures { intact_in S.Blocks.meanings S.Blocks.holdings blobs.new.tx }
{
    let reply = replied(alloc, blobs, command)?;
    text_of(alloc, &reply)
}

/// Performs a line and applies its changes.
fn answer<S: BlocksMut>(
    alloc: Global,
    blobs: &mut BlobStore<S>,
    line: &str,
    chance: &mut Pcg32,
) -> Result<String, Fail>
    requires { intact_in S.Blocks.meanings S.Blocks.holdings blobs.old.tx }
    ensures { intact_in S.Blocks.meanings S.Blocks.holdings blobs.new.tx }
{
    let text = text_told(alloc, blobs, &parsed(alloc, line)?)?;
    match blobs.tx.commit(alloc, chance) {
        Ok(()) => Ok(text),
        Err(_) => Err("changes that weren't applied".into()),
    }
}

/// The texts of the replies to these lines, one after another.
pub fn answer_each<S: BlocksMut>(
    alloc: Global,
    blobs: &mut BlobStore<S>,
    lines: &str,
) -> Result<String, Fail>
    requires { intact_in S.Blocks.meanings S.Blocks.holdings blobs.old.tx }
    ensures { intact_in S.Blocks.meanings S.Blocks.holdings blobs.new.tx }
{
    let mut chance = Pcg32::new(1, 2);
    let mut texts = String::new(alloc);
    for line in lines.split('\n') {
        if !line.is_empty() {
            texts.push_str(&answer(alloc, blobs, line, &mut chance)?)?;
        }
    }
    Ok(texts)
}

/// The texts of the replies to these lines on a new file system over the store, one after another.
pub fn answers<S: BlocksMut + Drop>(alloc: Global, store: S, lines: &str) -> Result<String, Fail>
    requires intact { S.Blocks.meanings.intact store }
    requires few { IsFew (S.Blocks.holdings.used store) }
{
    let store = rooted(alloc, store)?;
    let mut blobs = BlobStore::new(Tx::new(alloc, store, [1; 32]));
    let texts = answer_each(alloc, &mut blobs, lines);
    drop(blobs.into_tx().into_store());
    texts
}
