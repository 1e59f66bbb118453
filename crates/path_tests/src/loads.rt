// How many blocks each call on a tree loads.
ghost use Rattle.std.specs.Prelude.{◌≡◌, IfOk};
ghost use Rattle.memory_stores.specs.store_api.Holdings.{IsFew};
ghost use Rattle.memory_stores.specs.store_api.Txs.{intact_in};

use crate::counts::counted;
use crate::tower::empty_store;
use block_id::BlockId;
use memory_stores::store_api::{Blocks, BlocksMut, Durable, Tx};
use path_layer::data_ranges::{resize, write_range};
use path_layer::data_reads::{drop_tree, len, new_tree, read_range};
use rand_pcg::Pcg32;
use std::alloc::Global;
use std::test::Fail;

/// A row: the bytes of the tree, the call, its place, and its number of bytes or the new length; then how often a block is
/// loaded, as a sum.
#[derive(Drop)]
struct Row<'a> {
    bytes: usize,
    call: &'a str,
    from: u64,
    count: u64,
    loads: &'a str,
}

/// A leaf has 42 bytes and a node two children. 42 bytes are a leaf alone; 85 bytes three leaves, and 6 nodes on 3 levels; 169 bytes
/// five leaves, and 11 nodes on 4 levels; 336 bytes eight leaves, and 15 nodes on 4 levels, all full.
const LOADS: &str = "# making a tree loads nothing
42 make 0 0 = 0
169 make 0 0 = 0
# a length: the front of the root, and where that is no leaf a node of each level; without the front these were 1, 3, 4 and 4
42 length 0 0 = 1
85 length 0 0 = 1 + 3
169 length 0 0 = 1 + 4
336 length 0 0 = 1 + 4
# a read: the root, and the nodes that have room for a place of the range
42 read 0 42 = 1
85 read 84 1 = 3
169 read 0 0 = 1
169 read 100 1 = 4
169 read 41 2 = 5
169 read 83 2 = 6
169 read 167 2 = 7
169 read 0 169 = 11
169 read 169 1 = 4
169 read 210 1 = 3
169 read 252 1 = 2
169 read 336 1 = 1
336 read 0 336 = 15
# a drop: the front of the root, and where that is no leaf the root and the inner nodes; without the front 1, 3, 6 and 7
42 drop 0 0 = 1
85 drop 0 0 = 1 + 3
169 drop 0 0 = 1 + 6
336 drop 0 0 = 1 + 7
# a write inside: the right border, and the nodes below the root that hold a byte of the range; one of nothing: none
42 write 0 42 = 1
85 write 84 1 = 3 + 2
85 write 0 85 = 3 + 5
169 write 100 0 = 0
169 write 100 1 = 4 + 3
169 write 41 2 = 4 + 4
169 write 168 1 = 4 + 3
169 write 0 169 = 4 + 10
# a write past the end: the right border twice, and where it begins inside the nodes that hold a byte of the range between; the last leaf is one of them, and isn't loaded again
42 write 42 1 = 1 + 1
42 write 0 43 = 1 + 1
169 write 169 1 = 4 + 4
169 write 169 200 = 4 + 4
169 write 168 2 = 4 + 4 + 3
169 write 150 100 = 4 + 7 + 3
# growing: the right border twice, also where the depth rises; the same length: once
42 resize 0 672 = 1 + 1
85 resize 0 86 = 3 + 3
169 resize 0 170 = 4 + 4
336 resize 0 337 = 4 + 4
169 resize 0 169 = 4
# cutting: the old right border; the nodes below the root on the way down to the new last leaf; the other inner nodes that go
42 resize 0 0 = 1
85 resize 0 84 = 3 + 2 + 1
85 resize 0 0 = 3 + 2 + 1
169 resize 0 168 = 4 + 3 + 2
169 resize 0 100 = 4 + 3 + 2
169 resize 0 43 = 4 + 3 + 3
169 resize 0 0 = 4 + 3 + 3
336 resize 0 335 = 4 + 3
336 resize 0 169 = 4 + 3 + 1
336 resize 0 42 = 4 + 3 + 4";

/// The parts of a row.
fn parts(row: &str) -> Option<Row<'_>> {
    let (bytes, rest) = row.split_once(' ')?;
    let (call, rest) = rest.split_once(' ')?;
    let (from, rest) = rest.split_once(' ')?;
    let (count, loads) = rest.split_once(" = ")?;
    Some(Row {
        bytes: bytes.parse().ok()?,
        call,
        from: from.parse().ok()?,
        count: count.parse().ok()?,
        loads,
    })
}

/// What a sum comes to.
fn sum_of(sum: &str) -> Option<usize> {
    let mut total = 0usize;
    for number in sum.split(" + ") {
        let number: usize = number.parse().ok()?;
        total = total.saturating_add(number);
    }
    Some(total)
}

/// A tree of n bytes, applied to the store.
fn make<S: BlocksMut>(alloc: Global, tx: &mut Tx<S>, n: usize) -> Result<BlockId, Fail>
    requires { intact_in S.Blocks.meanings S.Blocks.holdings tx.old }
    ensures { intact_in S.Blocks.meanings S.Blocks.holdings tx.new }
{
    if n > 1000 {
        return Err("too long".into());
    }
    let bytes = vec![in alloc; 5; n]?;
    let root = new_tree(alloc, tx, &bytes)?;
    tx.commit(alloc, &mut Pcg32::new(1, 2))?;
    Ok(root)
}

/// The store with a tree of n bytes in its directory, and the tree's root.
fn made<S: Durable + Drop>(alloc: Global, store: S, n: usize) -> Result<(S, BlockId), Fail>
    requires intact { S.Durable.meanings.intact store }
    requires few { IsFew (S.Durable.holdings.used store) }
    ensures intact { IfOk result (λ made. S.Durable.meanings.intact made.0) }
    ensures few { IfOk result (λ made. IsFew (S.Durable.holdings.used made.0)) }
{
    let mut tx = Tx::new(alloc, store, [1; 32]);
    let root = make(alloc, &mut tx, n);
    let mut store = tx.into_store();
    let root = root?;
    store.write_out(alloc)?;
    Ok((store, root))
}

fn write<S: Blocks>(
    alloc: Global,
    tx: &mut Tx<S>,
    root: &BlockId,
    from: u64,
    n: u64,
) -> Result<(), Fail>
    requires { intact_in S.meanings S.holdings tx.old }
{
    if from > 1000 || n > 1000 {
        return Err("too long".into());
    }
    let bytes = vec![in alloc; 7; n as usize]?;
    write_range(alloc, tx, root, from, &bytes)?;
    Ok(())
}

/// Makes a call on a tree that is there.
fn make_call<S: Blocks>(
    alloc: Global,
    tx: &mut Tx<S>,
    root: &BlockId,
    row: &Row<'_>,
) -> Result<(), Fail>
    requires { intact_in S.meanings S.holdings tx.old }
{
    match row.call {
        "make" => {}
        "length" => drop(len(alloc, tx, root)?),
        "read" => drop(read_range(alloc, tx, root, row.from, row.count)?),
        "write" => write(alloc, tx, root, row.from, row.count)?,
        "resize" if row.count <= 1000 => resize(alloc, tx, root, row.count)?,
        "drop" => drop_tree(alloc, tx, root)?,
        _ => return Err("no such call".into()),
    }
    Ok(())
}

/// The store after a call on a tree.
fn called<S: Blocks + Drop>(
    alloc: Global,
    store: S,
    root: &BlockId,
    row: &Row<'_>,
) -> Result<S, Fail>
    requires intact { S.Blocks.meanings.intact store }
    requires few { IsFew (S.Blocks.holdings.used store) }
{
    let mut tx = Tx::new(alloc, store, [2; 32]);
    let outcome = make_call(alloc, &mut tx, root, row);
    let store = tx.into_store();
    outcome?;
    Ok(store)
}

/// How often a directory was asked for a file, until a tree was made in it and a row's call made on the tree.
fn loads_of(alloc: Global, row: &Row<'_>) -> Result<usize, Fail> {
    let (store, root) = made(alloc, empty_store(alloc)?, row.bytes)?;
    let (got, _) = counted(called(alloc, store, &root, row)?);
    Ok(got)
}

#[test]
fn each_call_on_a_tree_loads_what_it_needs(rt: HostRuntime) -> Result<(), Fail> {
    for line in LOADS.split('\n') {
        if !line.starts_with('#') {
            let row = parts(line).ok_or("a row")?;
            let found = loads_of(rt.alloc(), &row)?;
            assert!(rt;
                Some(found) == sum_of(row.loads),
                "{found} loads, and not {line}"
            );
        }
    }
    Ok(())
}
