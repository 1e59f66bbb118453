// What is loaded through a cache, and how often the store below is asked.
ghost use Rattle.std.specs.Prelude.{◌≤◌, IfOk};

use crate::counted::Counted;
use crate::steps::is_answered;
use block_cache::BlockCache;
use block_cache::store_api::{Blocks, BlocksMut};
use block_id::BlockId;
use memory_stores::{MapStore, put_one};
use rand_pcg::Pcg32;
use std::alloc::Global;
use std::test::Fail;

/// At most how many blocks are cached, and what is done with the blocks a, b, c and d over an empty store: `a=1` has one get
/// a payload of 50 ones, `a` loads it. Then the first byte that each load gave, and how often the store below was asked.
const ROWS: &str = "\
1: a=1 b=2 c=3 a a a = [1, 1, 1] by 1 loads
1: a=1 b=2 c=3 a b a b = [1, 2, 1, 2] by 4 loads
2: a=1 b=2 c=3 a b a b = [1, 2, 1, 2] by 2 loads
2: a=1 b=2 c=3 a b a c a = [1, 2, 1, 3, 1] by 3 loads
2: a=1 b=2 c=3 a b a c b = [1, 2, 1, 3, 2] by 4 loads
2: a=1 b=2 c=3 d d a = [0, 0, 1] by 3 loads
1: a=1 b=2 c=3 c c=2 c = [3, 2]
2: a=1 b=2 c=3 c c=2 c = [3, 2]
";

pub(crate) type Cached = BlockCache<Counted<MapStore>>;

/// No blocks, behind a cache of at most so many.
pub(crate) fn empty(alloc: Global, capacity: usize) -> Result<Cached, Fail>
    requires { 1 ≤ capacity }
    ensures { IfOk result (λ cache. ⟦<Cached as Blocks>⟧.meanings.intact cache) }
{
    let below = Counted {
        store: MapStore::new(alloc, 50),
        loads: 0,
    };
    match BlockCache::new(alloc, below, capacity) {
        Ok(cache) => Ok(cache),
        Err((_, below)) => {
            drop(below);
            Err(Fail::from("out of memory"))
        }
    }
}

/// The block of this letter.
fn id_of(word: &str) -> BlockId {
    BlockId(match word {
        "a" => [1; 16],
        "b" => [2; 16],
        "c" => [3; 16],
        _ => [4; 16],
    })
}

/// Has a block get a payload of this byte, in a batch of its own.
fn give<S: BlocksMut>(alloc: Global, store: &mut S, word: &str, byte: &str) -> Result<(), Fail>
    requires { S.Blocks.meanings.intact store.old }
    ensures { S.Blocks.meanings.intact store.new }
{
    let byte: u8 = byte.parse().ok().ok_or("this is no byte")?;
    let payload = [byte; 50].to_vec(alloc)?;
    put_one(alloc, store, &id_of(word), payload, &mut Pcg32::new(1, 2))
}

/// The first byte of a payload, or 0 where there is none.
fn first_byte<S: Blocks>(alloc: Global, store: &mut S, word: &str) -> Result<u8, Fail>
    requires { S.meanings.intact store.old }
    ensures { S.meanings.intact store.new }
{
    match store.load(alloc, &id_of(word))? {
        Some(bytes) => Ok(bytes.first().copied().unwrap_or(0)),
        None => Ok(0),
    }
}

/// The first byte that each load gives, one step after another.
fn play<S: BlocksMut>(alloc: Global, store: &mut S, steps: &str) -> Result<Vec<u8>, Fail>
    requires { S.Blocks.meanings.intact store.old }
{
    let mut seen = Vec::new(alloc);
    for step in steps.split(' ') {
        match step.split_once('=') {
            Some((word, byte)) => give(alloc, store, word, byte)?,
            None => seen.push(first_byte(alloc, store, step)?)?,
        }
    }
    Ok(seen)
}

/// The same through a cache, and how many loads reached the store below.
fn loaded(alloc: Global, row: &str) -> Result<(Vec<u8>, u64), Fail> {
    let (most, steps) = row.split_once(": ").ok_or("a number, and steps")?;
    let most: usize = most.parse().ok().ok_or("this is no number")?;
    if most == 0 {
        return Err("no room".into());
    }
    let mut cache = empty(alloc, most)?;
    let seen = play(alloc, &mut cache, steps);
    let below = cache.into_store();
    Ok((seen?, below.loads))
}

#[test]
fn loads_are_answered_from_the_cache(rt: HostRuntime) -> Result<(), Fail> {
    let alloc = rt.alloc();
    for line in ROWS.lines() {
        let (row, wanted) = line.split_once(" = ").unwrap_or((line, ""));
        let (seen, loads) = loaded(alloc, row)?;
        let mut told = format!(in alloc; "{seen:?}")?;
        if wanted.ends_with("loads") {
            told = format!(in alloc; "{told} by {loads} loads")?;
        }
        is_answered(row, &told, wanted)?;
    }
    Ok(())
}
