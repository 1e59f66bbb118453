// Work on one tree of blocks in memory.
ghost use Rattle.std.specs.Prelude.{◌<◌, ◌≤◌, ◌^◌};
ghost use Rattle.memory_stores.specs.store_api.Txs.{intact_in};

use block_id::{BlockId, Fail};
use data_ranges::data_reads::{new_tree, read_range};
use data_ranges::{resize, write_range};
use memory_stores::MapStore;
use memory_stores::store_api::{Blocks, BlocksMut, Tx};
use rand_core::Rng;
use rand_pcg::Pcg32;
use std::alloc::Global;
use std::io;

/// The bytes of a payload, as in a block file of 16,384.
const PAYLOAD: usize = 16306;

/// The bytes of a small write, and how often it is made.
const SMALL: usize = 4096;

const CALLS: u64 = 1000;

/// The bytes that are read at once.
const PIECE: u64 = 500_000;

/// The most bytes of a tree.
const LONGEST: u64 = 1 << 32;

/// Has the store take what waits, and answers how many blocks that changes.
fn keep<S: BlocksMut, R: Rng>(alloc: Global, tx: &mut Tx<S>, chance: &mut R) -> Result<usize, Fail>
    requires { intact_in S.Blocks.meanings S.Blocks.holdings tx.old }
    ensures { intact_in S.Blocks.meanings S.Blocks.holdings tx.new }
{
    let count = tx.batch().len();
    match tx.commit(alloc, chance) {
        Ok(()) => Ok(count),
        Err(_) => Err(Fail::Memory),
    }
}

/// Reads so many pieces from the beginning, and answers how many bytes they have.
fn read_all<S: Blocks>(
    alloc: Global,
    tx: &mut Tx<S>,
    root: &BlockId,
    pieces: u64,
) -> Result<u64, Fail>
    requires { intact_in S.meanings S.holdings tx.old }
    ensures { intact_in S.meanings S.holdings tx.new }
{
    let mut count = 0u64;
    for piece in 0..pieces {
        let bytes = read_range(alloc, tx, root, piece.saturating_mul(PIECE), PIECE)?;
        count = count.saturating_add(bytes.len() as u64);
    }
    Ok(count)
}

/// What is done to the tree again and again.
#[derive(Clone, Copy)]
enum Change {
    /// A small range is overwritten, at a random place.
    Overwrite,
    /// The tree grows by a small write at its end.
    Grow,
    /// As much is cut off again.
    Cut,
}

/// A tree of so many bytes when it was made, and what is done to it so often.
#[derive(Clone, Copy)]
struct Changing {
    root: BlockId,
    size: u64,
    what: Change,
    calls: u64,
}

/// Changes the tree once: it is this call, counted from 0.
fn change_once<S: BlocksMut, R: Rng>(
    alloc: Global,
    tx: &mut Tx<S>,
    tree: Changing,
    call: u64,
    chance: &mut R,
) -> Result<(), Fail>
    requires intact { intact_in S.Blocks.meanings S.Blocks.holdings tx.old }
    requires small { tree.size ≤ 2 ^ 32 }
    requires few { tree.calls ≤ 1000 }
    requires within { call < tree.calls }
    ensures { intact_in S.Blocks.meanings S.Blocks.holdings tx.new }
{
    let bytes = [9u8; SMALL];
    let size = tree.size;
    match tree.what {
        Change::Overwrite => {
            let place = u64::from(chance.next_u32()) % (size + 1);
            write_range(alloc, tx, &tree.root, place.saturating_sub(4096), &bytes)
        }
        Change::Grow => write_range(alloc, tx, &tree.root, size + call * 4096, &bytes),
        Change::Cut => {
            let left = tree.calls - call - 1;
            resize(alloc, tx, &tree.root, size + left * 4096)
        }
    }
}

/// Changes the tree as often as it says, and answers how many blocks that changed.
fn change_often<S: BlocksMut, R: Rng>(
    alloc: Global,
    tx: &mut Tx<S>,
    tree: Changing,
    chance: &mut R,
) -> Result<usize, Fail>
    requires intact { intact_in S.Blocks.meanings S.Blocks.holdings tx.old }
    requires small { tree.size ≤ 2 ^ 32 }
    requires few { tree.calls ≤ 1000 }
    ensures { intact_in S.Blocks.meanings S.Blocks.holdings tx.new }
{
    let mut changed = 0usize;
    for call in 0..tree.calls {
        change_once(alloc, tx, tree, call, chance)?;
        changed = changed.saturating_add(keep(alloc, tx, chance)?);
    }
    Ok(changed)
}

/// How often a step is called where so many are taken.
fn calls_from(step: u64, steps: u64) -> u64
    ensures { result ≤ 1000 }
{
    if step <= steps { CALLS } else { 0 }
}

/// Takes so many steps over a store, and answers the number that each gives.
fn take_steps<S: BlocksMut>(
    alloc: Global,
    tx: &mut Tx<S>,
    size: u64,
    steps: u64,
) -> Result<Vec<u64>, Fail>
    requires intact { intact_in S.Blocks.meanings S.Blocks.holdings tx.old }
    requires small { size ≤ 2 ^ 32 }
{
    let mut chance = Pcg32::new(1, 2);
    let mut lines = Vec::new(alloc);
    let bytes = vec![in alloc; 7u8; size as usize]?;
    let root = new_tree(alloc, tx, &bytes)?;
    drop(bytes);
    lines.push(keep(alloc, tx, &mut chance)? as u64)?;
    let pieces = if steps > 1 { size / PIECE + 1 } else { 0 };
    lines.push(read_all(alloc, tx, &root, pieces)?)?;
    let mut tree = Changing {
        root,
        size,
        what: Change::Overwrite,
        calls: calls_from(3, steps),
    };
    lines.push(change_often(alloc, tx, tree, &mut chance)? as u64)?;
    tree.what = Change::Grow;
    tree.calls = calls_from(4, steps);
    lines.push(change_often(alloc, tx, tree, &mut chance)? as u64)?;
    tree.what = Change::Cut;
    tree.calls = calls_from(5, steps);
    lines.push(change_often(alloc, tx, tree, &mut chance)? as u64)?;
    Ok(lines)
}

/// No changes over an empty store.
fn empty(alloc: Global) -> Tx<MapStore>
    ensures { ⟦<Tx<MapStore> as Blocks>⟧.meanings.intact result }
{
    Tx::new(alloc, MapStore::new(alloc, PAYLOAD), [0; 32])
}

/// Takes so many steps over a store in memory.
fn work(alloc: Global, size: u64, steps: u64) -> Result<Vec<u64>, Fail>
    requires { size ≤ 2 ^ 32 }
{
    let mut tx = empty(alloc);
    let lines = take_steps(alloc, &mut tx, size, steps);
    drop(tx.into_store());
    lines
}

const NAMES: [&str; 5] = [
    "blocks made",
    "bytes read",
    "blocks changed by overwriting",
    "blocks changed by growing",
    "blocks changed by cutting",
];

/// Takes so many of the steps over a tree of so many bytes: made, read, overwritten at random places, grown by small writes, cut
/// by as much. Each prints a line, with how many blocks it changed.
pub fn measure(rt: &HostRuntime, size: u64, steps: u64) -> io::Result<()> {
    if size > LONGEST {
        return println!(rt; "too long");
    }
    match work(rt.alloc(), size, steps) {
        Ok(lines) => {
            for (name, number) in NAMES.iter().zip(lines.iter()) {
                println!(rt; "{number} {name}")?;
            }
            Ok(())
        }
        Err(_) => println!(rt; "out of memory"),
    }
}
