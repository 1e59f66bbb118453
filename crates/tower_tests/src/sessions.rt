// One session of a client: its store is opened, takes steps, and leaves what is kept.
ghost use Rattle.std.specs.Prelude.{◌≡◌, true};
ghost use Rattle.block_cache.specs.store_api.Holdings.{IsFew};
ghost use Rattle.block_cache.specs.store_api.Lists.{MayConfigure};
ghost use Rattle.block_cache.specs.store_api.Txs.{intact_in};

use crate::changes::{commit, follow};
use crate::site::Site;
use crate::tower::Tower;
use crate::words::{Loaded, pair, wanted};
use block_cache::store_api::{Blocks, Durable, Tx};
use block_id::BlockId;
use memory_outside::{MemoryKeeper, MemoryVault};
use outside::Keeper;
use record_saver::{Saver, SyncError};
use std::alloc::Global;
use std::mem;
use std::test::Fail;

fn load<S: Blocks>(alloc: Global, store: &mut S, id: &BlockId) -> Loaded
    requires { S.meanings.intact store.old }
    ensures { S.meanings.intact store.new }
{
    match store.load(alloc, id) {
        Ok(Some(bytes)) => Ok(bytes.first().copied()),
        Ok(None) => Ok(None),
        Err(fail) => Err(fail),
    }
}

/// Each load is answered so, as in `a=5 b=nothing`.
fn load_each<S: Blocks>(alloc: Global, tx: &mut Tx<S>, words: &str) -> Result<(), Fail>
    requires { intact_in S.meanings S.holdings tx.old }
    ensures { intact_in S.meanings S.holdings tx.new }
{
    for word in words.split(' ') {
        let (id, what) = pair(word)?;
        let loaded = load(alloc, tx, &id);
        if wanted(what) != Some(loaded) {
            return Err(Fail::new(format_args!("{word}, and {loaded:?} came")));
        }
    }
    Ok(())
}

type Synced = Result<(), SyncError>;

/// Two syncs of a store that was changed.
fn sync_twice<S: Durable, K: Keeper>(alloc: Global, store: &mut S, keeper: K) -> (Synced, Synced, K)
    requires { S.Durable.meanings.intact store.old }
    ensures intact { S.Durable.meanings.intact store.new }
    ensures few { IsFew (S.Durable.holdings.used store.old) → IsFew (S.Durable.holdings.used store.new) }
{
    let mut saver = Saver {
        keeper,
        last: Vec::new(alloc),
        changed: true,
    };
    let first = saver.sync(alloc, store);
    let second = saver.sync(alloc, store);
    let Saver {
        keeper,
        last: _,
        changed: _,
    } = saver;
    (first, second, keeper)
}

/// The word for what a sync answered.
fn word_of(synced: Synced) -> &'static str {
    match synced {
        Ok(()) => "ok",
        Err(SyncError::Memory) => "no-memory",
        Err(SyncError::FaultDirectory) => "fault-of-directory",
        Err(SyncError::FaultState) => "fault-of-record",
    }
}

/// Two syncs are answered so, as in `fault-of-record ok`.
fn sync<S: Durable>(
    alloc: Global,
    store: &mut S,
    at: &mut MemoryKeeper,
    both: &str,
) -> Result<(), Fail>
    requires { S.Durable.meanings.intact store.old }
    ensures intact { S.Durable.meanings.intact store.new }
    ensures few { IsFew (S.Durable.holdings.used store.old) → IsFew (S.Durable.holdings.used store.new) }
{
    let keeper = mem::replace(at, MemoryKeeper::new(alloc, None, Vec::new(alloc)));
    let (first, second, keeper) = sync_twice(alloc, store, keeper);
    *at = keeper;
    if both.split_once(' ') == Some((word_of(first), word_of(second))) {
        Ok(())
    } else {
        Err(Fail::new(format_args!("{} {} came", word_of(first), word_of(second))))
    }
}

/// Whether these bytes may wait as the configuration.
fn may_configure(bytes: &[u8]) -> bool
    ensures { result ≡ true → MayConfigure bytes.now }
{
    bytes.len() < 1000 && !bytes.starts_with(b"cryfs;block;0\0")
}

/// Has this text wait as the configuration.
fn configure<S: Durable>(alloc: Global, store: &mut S, text: &str) -> Result<(), Fail>
    requires { S.Durable.meanings.intact store.old }
    ensures intact { S.Durable.meanings.intact store.new }
    ensures few { IsFew (S.Durable.holdings.used store.old) → IsFew (S.Durable.holdings.used store.new) }
{
    let bytes = text.as_bytes().to_vec(alloc)?;
    if !may_configure(&bytes) {
        return Err(Fail::from("no configuration"));
    }
    store.put_config(alloc, bytes)?;
    Ok(())
}

/// So many bytes wait, and the record has so many with its list and with an empty one, as in `136 310 146`.
fn count_bytes<S: Durable>(alloc: Global, store: &mut S, wanted: &str) -> Result<(), Fail>
    requires { S.Durable.meanings.intact store.old }
    ensures { store.new ≡ store.old }
{
    let with_list = store.state_bytes(alloc, true)?.len();
    let without = store.state_bytes(alloc, false)?.len();
    let sizes = format!(in alloc; "{} {with_list} {without}", store.buffered())?;
    if sizes.as_str() == wanted {
        Ok(())
    } else {
        Err(Fail::new(format_args!("{sizes} came")))
    }
}

/// A step on the store itself.
fn act<S: Durable>(
    alloc: Global,
    store: &mut S,
    at: &mut MemoryKeeper,
    step: &str,
) -> Result<(), Fail>
    requires { S.Durable.meanings.intact store.old }
    ensures intact { S.Durable.meanings.intact store.new }
    ensures few { IsFew (S.Durable.holdings.used store.old) → IsFew (S.Durable.holdings.used store.new) }
{
    match step.split_once(' ') {
        Some(("sync", both)) => sync(alloc, store, at, both),
        Some(("configure", text)) => configure(alloc, store, text),
        Some(("bytes", wanted)) => count_bytes(alloc, store, wanted),
        _ => Err(Fail::new(format_args!("no step is {step}"))),
    }
}

/// One step. All but a commit forget the changes that wait.
fn take<S: Durable>(
    alloc: Global,
    tx: &mut Tx<S>,
    at: &mut MemoryKeeper,
    step: &str,
) -> Result<(), Fail>
    requires { intact_in S.Durable.meanings S.Durable.holdings tx.old }
    ensures { intact_in S.Durable.meanings S.Durable.holdings tx.new }
{
    match step.split_once(' ').unwrap_or((step, "")) {
        ("load", words) => load_each(alloc, tx, words),
        ("commit", words) => commit(alloc, tx, words),
        ("follow", word) => follow(alloc, tx, word),
        _ => {
            let done = act(alloc, &mut tx.store, at, step);
            tx.begin([0; 32]);
            done
        }
    }
}

fn take_all<S: Durable>(
    alloc: Global,
    tx: &mut Tx<S>,
    at: &mut MemoryKeeper,
    steps: &str,
) -> Result<(), Fail>
    requires { intact_in S.Durable.meanings S.Durable.holdings tx.old }
{
    for step in steps.split(", ") {
        take(alloc, tx, at, step)?;
    }
    Ok(())
}

/// A session of these steps, parted by `, `.
pub(crate) fn session<S: Tower>(alloc: Global, site: &mut Site, steps: &str) -> Result<(), Fail> {
    let record = site.keeper.kept().ok_or("nothing is kept")?;
    let vault = mem::replace(&mut site.vault, MemoryVault::new(alloc));
    let store = S::open(alloc, vault, record)?;
    let mut tx = Tx::new(alloc, store, [0; 32]);
    let done = take_all(alloc, &mut tx, &mut site.keeper, steps);
    site.vault = tx.into_store().into_vault();
    done
}
