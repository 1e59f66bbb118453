// Trees over a store in memory, at the smallest block: a leaf has 42 bytes, and a node two children.
ghost use Rattle.std.specs.Prelude.{◌≤◌, ◌^◌};
ghost use Rattle.memory_stores.specs.store_api.Txs.{intact_in};

use blob_store::data_nodes::Node;
use blob_store::data_ranges::{resize, write_range};
use blob_store::data_reads::{drop_tree, len, new_tree, read_range};
use blob_store::data_tree::{load_at, load_root, put_new, put_node};
use block_id::{BlockId, Why};
use memory_stores::MapStore;
use memory_stores::store_api::{Blocks, BlocksMut, Tx};
use rand_pcg::Pcg32;
use std::alloc::Global;
use std::test::Fail;

const SIZES: [usize; 7] = [0, 42, 43, 84, 85, 168, 169];

const COUNTS: [usize; 7] = [1, 1, 3, 3, 6, 7, 11];

/// Sizes at the borders of a leaf's room and of each depth's, with how many nodes stand on the right border.
const BORDERS: [(usize, usize); 15] = [
    (0, 1),
    (41, 1),
    (42, 1),
    (43, 2),
    (83, 2),
    (84, 2),
    (85, 3),
    (167, 3),
    (168, 3),
    (169, 4),
    (335, 4),
    (336, 4),
    (337, 5),
    (671, 5),
    (672, 5),
];

fn bytes_of(alloc: Global, n: usize) -> Result<Vec<u8>, Fail> {
    let mut out = Vec::new(alloc);
    for i in 0..n {
        out.push((i % 251) as u8)?;
    }
    Ok(out)
}

/// No changes over an empty store of the smallest blocks.
fn empty(alloc: Global) -> Tx<MapStore>
    ensures { ⟦<Tx<MapStore> as Blocks>⟧.meanings.intact result }
{
    Tx::new(alloc, MapStore::new(alloc, 50), [0; 32])
}

/// Whether a tree of one size has the nodes and the bytes of another after it was grown or cut.
fn is_resized<S: Blocks>(
    alloc: Global,
    tx: &mut Tx<S>,
    before: usize,
    after: usize,
    count: usize,
) -> Result<bool, Fail>
    requires { intact_in S.meanings S.holdings tx.old }
{
    if before > 169 || after > 169 {
        return Ok(false);
    }
    let mut text = bytes_of(alloc, before)?;
    if text.len() != before {
        return Ok(false);
    }
    let root = new_tree(alloc, tx, &text)?;
    resize(alloc, tx, &root, after as u64)?;
    text.resize(after, 0)?;
    let back = read_range(alloc, tx, &root, 0, 1000)?;
    let same = back.as_slice() == text.as_slice() && tx.batch().len() == count;
    let long = len(alloc, tx, &root)?;
    drop_tree(alloc, tx, &root)?;
    Ok(same && long == after as u64 && tx.batch().is_empty())
}

#[test]
fn each_size_grown_or_cut_to_each(rt: HostRuntime) -> Result<(), Fail> {
    for before in SIZES {
        for (after, count) in SIZES.iter().zip(COUNTS.iter()) {
            let mut tx = empty(rt.alloc());
            let seen = is_resized(rt.alloc(), &mut tx, before, *after, *count);
            drop(tx.into_store());
            assert!(rt; seen?);
        }
    }
    Ok(())
}

/// The nodes of a tree from its root on, each before those below it: a leaf's bytes, or the depth once for each child.
#[cycle(shape)]
fn shape_below<S: Blocks>(
    alloc: Global,
    tx: &mut Tx<S>,
    id: &BlockId,
    depth: u8,
    out: &mut Vec<Vec<u8>>,
) -> Result<(), Fail>
    requires { intact_in S.meanings S.holdings tx.old }
    ensures { intact_in S.meanings S.holdings tx.new }
{
    match load_at(alloc, tx, id, depth)? {
        Node::Leaf(bytes) => out.push(bytes)?,
        Node::Inner { depth: _, children } => {
            out.push(vec![in alloc; depth; children.len()]?)?;
            for child in &children {
                shape_below(alloc, tx, child, depth - 1, out)?;
            }
        }
    }
    Ok(())
}

/// The call on ranges, or the plain one.
fn resize_by<S: Blocks>(
    alloc: Global,
    tx: &mut Tx<S>,
    root: &BlockId,
    n: u64,
    plainly: bool,
) -> Result<(), block_id::Fail>
    requires intact { intact_in S.meanings S.holdings tx.old }
    requires small { n ≤ 2 ^ 40 }
    ensures { intact_in S.meanings S.holdings tx.new }
{
    if plainly {
        return blob_store::data_reads::resize(alloc, tx, root, n);
    }
    resize(alloc, tx, root, n)
}

/// How many nodes a stored tree of one size has, its nodes as it was grown or cut to another, and the number of changes.
fn shape_after<S: BlocksMut>(
    alloc: Global,
    tx: &mut Tx<S>,
    before: usize,
    after: usize,
    plainly: bool,
) -> Result<(usize, Vec<Vec<u8>>, usize), Fail>
    requires { intact_in S.Blocks.meanings S.Blocks.holdings tx.old }
{
    let text = bytes_of(alloc, before)?;
    if text.len() > 1000 || after > 1000 {
        return Err(Fail::from("too long"));
    }
    let root = new_tree(alloc, tx, &text)?;
    let old = tx.batch().len();
    match tx.commit(alloc, &mut Pcg32::new(1, 2)) {
        Ok(()) => {}
        Err(_) => return Err(Fail::from("not committed")),
    }
    resize_by(alloc, tx, &root, after as u64, plainly)?;
    let changes = tx.batch().len();
    let mut nodes = Vec::new(alloc);
    let (_, level) = load_root(alloc, tx, &root)?;
    shape_below(alloc, tx, &root, level.depth, &mut nodes)?;
    Ok((old, nodes, changes))
}

/// Whether both bodies leave the same nodes, and the one on ranges changes no more than the border and the nodes that come or go.
fn agrees<S: BlocksMut>(
    alloc: Global,
    tx: &mut Tx<S>,
    other: &mut Tx<S>,
    before: usize,
    after: usize,
    border: usize,
) -> Result<bool, Fail>
    requires ranges { intact_in S.Blocks.meanings S.Blocks.holdings tx.old }
    requires plain { intact_in S.Blocks.meanings S.Blocks.holdings other.old }
{
    let (old, nodes, changes) = shape_after(alloc, tx, before, after, false)?;
    let (_, plain, _) = shape_after(alloc, other, before, after, true)?;
    let moved = nodes.len().abs_diff(old);
    Ok(nodes == plain && changes == moved.saturating_add(border))
}

#[test]
fn ranges_leave_the_nodes_that_a_rewrite_leaves(rt: HostRuntime) -> Result<(), Fail> {
    for (before, old_border) in BORDERS {
        for (after, new_border) in BORDERS {
            let border = if before == after {
                0
            } else {
                old_border.min(new_border)
            };
            let mut tx = empty(rt.alloc());
            let mut other = empty(rt.alloc());
            let seen = agrees(rt.alloc(), &mut tx, &mut other, before, after, border);
            drop(tx.into_store());
            drop(other.into_store());
            assert!(rt; seen?);
        }
    }
    Ok(())
}

/// How many entries a batch has when bytes are written at a place of a stored tree of 169 bytes, and what is read there.
fn written<S: BlocksMut>(
    alloc: Global,
    tx: &mut Tx<S>,
    from: u64,
    bytes: &[u8],
) -> Result<(usize, Vec<u8>), Fail>
    requires { intact_in S.Blocks.meanings S.Blocks.holdings tx.old }
{
    if from > 1000 || bytes.len() > 1000 {
        return Err(Fail::from("too long"));
    }
    let text = bytes_of(alloc, 169)?;
    if text.len() > 169 {
        return Err(Fail::from("too long"));
    }
    let root = new_tree(alloc, tx, &text)?;
    match tx.commit(alloc, &mut Pcg32::new(1, 2)) {
        Ok(()) => {}
        Err(_) => return Err(Fail::from("not committed")),
    }
    write_range(alloc, tx, &root, from, bytes)?;
    let count = tx.batch().len();
    let back = read_range(alloc, tx, &root, from, bytes.len() as u64)?;
    Ok((count, back))
}

#[test]
fn a_write_changes_the_leaves_of_its_range_and_the_border_past_the_end(
    rt: HostRuntime,
) -> Result<(), Fail> {
    for (from, n, entries) in [
        (100, 1, 1),
        (41, 2, 2),
        (0, 169, 5),
        (168, 1, 1),
        (169, 1, 4),
        (150, 100, 6),
        (169, 200, 13),
    ] {
        let bytes = vec![in rt.alloc(); 7; n]?;
        let mut tx = empty(rt.alloc());
        let seen = written(rt.alloc(), &mut tx, from, &bytes);
        drop(tx.into_store());
        let (count, back) = seen?;
        assert!(rt; count == entries && back.as_slice() == bytes.as_slice());
    }
    Ok(())
}

/// Whether each call on a root answers that the blocks are no tree.
fn is_refused<S: Blocks>(alloc: Global, tx: &mut Tx<S>, root: &BlockId) -> bool
    requires { intact_in S.meanings S.holdings tx.old }
    ensures { intact_in S.meanings S.holdings tx.new }
{
    let measured = len(alloc, tx, root);
    let read = read_range(alloc, tx, root, 0, 1000);
    let wrote = write_range(alloc, tx, root, 0, b"a");
    let cut = resize(alloc, tx, root, 1);
    let dropped = drop_tree(alloc, tx, root);
    matches!(measured, Err(block_id::Fail::Violation(Why::Structure)))
        && matches!(read, Err(block_id::Fail::Violation(Why::Structure)))
        && matches!(wrote, Err(block_id::Fail::Violation(Why::Structure)))
        && matches!(cut, Err(block_id::Fail::Violation(Why::Structure)))
        && matches!(dropped, Err(block_id::Fail::Violation(Why::Structure)))
}

/// A root of this depth whose only child is a leaf, itself, or absent, refused.
fn refuses<S: Blocks>(alloc: Global, tx: &mut Tx<S>, depth: u8, which: u8) -> Result<bool, Fail>
    requires { intact_in S.meanings S.holdings tx.old }
{
    if tx.payload() != 50 || depth == 0 {
        return Err(Fail::from("another store"));
    }
    let child = put_new(alloc, tx, &Node::Leaf(Vec::new(alloc)))?;
    let root = put_new(alloc, tx, &Node::Leaf(Vec::new(alloc)))?;
    let below = match which {
        0 => child,
        1 => root,
        _ => BlockId([9; 16]),
    };
    if !tx.contains(&root) {
        return Err(Fail::from("no root"));
    }
    let children = vec![in alloc; below; 1]?;
    put_node(alloc, tx, &root, &Node::Inner { depth, children })?;
    Ok(is_refused(alloc, tx, &root))
}

#[test]
fn blocks_that_are_no_tree_are_refused(rt: HostRuntime) -> Result<(), Fail> {
    for (depth, which) in [(2, 0), (1, 1), (1, 2), (255, 0)] {
        let mut tx = empty(rt.alloc());
        let seen = refuses(rt.alloc(), &mut tx, depth, which);
        drop(tx.into_store());
        assert!(rt; seen?);
    }
    Ok(())
}

/// Whether a root that names one child twice is refused as it is cut.
fn refuses_twins<S: Blocks>(alloc: Global, tx: &mut Tx<S>) -> Result<bool, Fail>
    requires { intact_in S.meanings S.holdings tx.old }
{
    if tx.payload() != 50 {
        return Err(Fail::from("another store"));
    }
    let child = put_new(alloc, tx, &Node::Leaf(Vec::new(alloc)))?;
    let children = vec![in alloc; child; 2]?;
    let root = put_new(alloc, tx, &Node::Inner { depth: 1, children })?;
    let cut = resize(alloc, tx, &root, 0);
    Ok(matches!(cut, Err(block_id::Fail::Violation(Why::Structure))))
}

#[test]
fn a_child_that_is_named_twice_is_refused_as_its_tree_is_cut(rt: HostRuntime) -> Result<(), Fail> {
    let mut tx = empty(rt.alloc());
    let seen = refuses_twins(rt.alloc(), &mut tx);
    drop(tx.into_store());
    assert!(rt; seen?);
    Ok(())
}
