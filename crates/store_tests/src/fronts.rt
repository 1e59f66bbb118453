// The fronts of payloads, as a store in memory, changes over it and a cache tell them, and what is asked for below.
ghost use Rattle.std.specs.Prelude.{IfOk};
ghost use Rattle.block_cache.specs.store_api.Holdings.{IsFew};
ghost use Rattle.block_cache.specs.store_api.Txs.{intact_in};

use crate::client_steps::{Client, SEED, new_client, play};
use crate::counted::Counted;
use block_cache::BlockCache;
use block_cache::store_api::{Blocks, Tx};
use memory_stores::MapStore;
use std::alloc::Global;
use std::test::Fail;

/// A new block: none of it, some bytes, all, and more than it has, before and after it is loaded whole, and after it
/// has changed. Another block has no payload.
const CHANGING: &str = "add it abcdefghijklmnopqrstuvwxyzABCDEFGHIJKLMNOPQRSTUVWX
commit = ok
front it 0 = 0 of 0
front it 1 = a
front it 8 = abcdefgh
front it 50 = abcdefghijklmnopqrstuvwxyzABCDEFGHIJKLMNOPQRSTUVWX
front it 51 = abcdefghijklmnopqrstuvwxyzABCDEFGHIJKLMNOPQRSTUVWX
load it = abcdefghijklmnopqrstuvwxyzABCDEFGHIJKLMNOPQRSTUVWX
front it 0 = 0 of 0
front it 1 = a
front it 8 = abcdefgh
front it 50 = abcdefghijklmnopqrstuvwxyzABCDEFGHIJKLMNOPQRSTUVWX
front it 51 = abcdefghijklmnopqrstuvwxyzABCDEFGHIJKLMNOPQRSTUVWX
put it XWVUTSRQPONMLKJIHGFEDCBAzyxwvutsrqponmlkjihgfedcba
commit = ok
front it 0 = 0 of 0
front it 1 = X
front it 8 = XWVUTSRQ
front it 50 = XWVUTSRQPONMLKJIHGFEDCBAzyxwvutsrqponmlkjihgfedcba
front it 51 = XWVUTSRQPONMLKJIHGFEDCBAzyxwvutsrqponmlkjihgfedcba
front 4 8 = none
";

/// A new block that waits among changes, and is removed again.
const AMONG_CHANGES: &str = "add it abcdefghijklmnopqrstuvwxyzABCDEFGHIJKLMNOPQRSTUVWX
front it 0 = 0 of 0
front it 1 = a
front it 8 = abcdefgh
front it 50 = abcdefghijklmnopqrstuvwxyzABCDEFGHIJKLMNOPQRSTUVWX
front it 51 = abcdefghijklmnopqrstuvwxyzABCDEFGHIJKLMNOPQRSTUVWX
remove it
front it 8 = none
";

/// Takes these steps over an empty store in memory.
fn play_in_memory(alloc: Global, steps: &str) -> Result<(), Fail> {
    let mut tx = Tx::new(alloc, MapStore::new(alloc, 50), SEED);
    let told = play(alloc, &mut tx, &mut new_client(), steps);
    drop(tx.into_store());
    told
}

#[test]
fn tells_fronts_in_memory_and_of_changes(rt: HostRuntime) -> Result<(), Fail> {
    play_in_memory(rt.alloc(), CHANGING)?;
    play_in_memory(rt.alloc(), AMONG_CHANGES)
}

type Cached = BlockCache<Counted<MapStore>>;

/// No blocks, behind a cache of at most one.
fn empty(alloc: Global) -> Result<Cached, Fail>
    ensures intact { IfOk result (λ cache. ⟦<Cached as Blocks>⟧.meanings.intact cache) }
    ensures few { IfOk result (λ cache. IsFew (⟦<Cached as Blocks>⟧.holdings.used cache)) }
{
    let below = Counted {
        store: MapStore::new(alloc, 50),
        loads: 0,
    };
    match BlockCache::new(alloc, below, 1) {
        Ok(cache) => Ok(cache),
        Err((_, below)) => {
            drop(below);
            Err("out of memory".into())
        }
    }
}

/// How many loads have reached the store below once these steps were taken.
fn loads_after(
    alloc: Global,
    tx: &mut Tx<Cached>,
    client: &mut Client,
    steps: &str,
) -> Result<u64, Fail>
    requires { intact_in ⟦<Cached as Blocks>⟧.meanings ⟦<Cached as Blocks>⟧.holdings tx.old }
    ensures { intact_in ⟦<Cached as Blocks>⟧.meanings ⟦<Cached as Blocks>⟧.holdings tx.new }
{
    play(alloc, tx, client, steps)?;
    Ok(tx.store.store().loads)
}

/// Five fronts of a new block.
const FIVE: &str = "add it abcdefghijklmnopqrstuvwxyzABCDEFGHIJKLMNOPQRSTUVWX
commit = ok
front it 0 = 0 of 0
front it 1 = a
front it 8 = abcdefgh
front it 50 = abcdefghijklmnopqrstuvwxyzABCDEFGHIJKLMNOPQRSTUVWX
front it 51 = abcdefghijklmnopqrstuvwxyzABCDEFGHIJKLMNOPQRSTUVWX
";

const WHOLE: &str = "load it = abcdefghijklmnopqrstuvwxyzABCDEFGHIJKLMNOPQRSTUVWX
";

const FIVE_AGAIN: &str = "front it 0 = 0 of 0
front it 1 = a
front it 8 = abcdefgh
front it 50 = abcdefghijklmnopqrstuvwxyzABCDEFGHIJKLMNOPQRSTUVWX
front it 51 = abcdefghijklmnopqrstuvwxyzABCDEFGHIJKLMNOPQRSTUVWX
";

/// How many loads had reached the store below after five fronts, the whole block, and five fronts again.
fn count_loads(alloc: Global, tx: &mut Tx<Cached>, client: &mut Client) -> Result<[u64; 3], Fail>
    requires { intact_in ⟦<Cached as Blocks>⟧.meanings ⟦<Cached as Blocks>⟧.holdings tx.old }
    ensures { intact_in ⟦<Cached as Blocks>⟧.meanings ⟦<Cached as Blocks>⟧.holdings tx.new }
{
    let fronts = loads_after(alloc, tx, client, FIVE)?;
    let whole = loads_after(alloc, tx, client, WHOLE)?;
    let again = loads_after(alloc, tx, client, FIVE_AGAIN)?;
    play(alloc, tx, client, CHANGING)?;
    Ok([fronts, whole, again])
}

#[test]
fn tells_fronts_through_a_cache_that_keeps_none(rt: HostRuntime) -> Result<(), Fail> {
    let mut tx = Tx::new(rt.alloc(), empty(rt.alloc())?, SEED);
    let seen = count_loads(rt.alloc(), &mut tx, &mut new_client());
    drop(tx.into_store().into_store());
    assert_eq!(rt; seen?, [5, 6, 6]);
    Ok(())
}
