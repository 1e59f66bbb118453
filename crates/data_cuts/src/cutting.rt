// Cutting a tree: only the new right border is put, and what stood behind it is dropped.
ghost use Rattle.std.specs.Prelude.{◌≡◌, ◌≤◌, ◌<◌, ◌+◌, ◌∷◌, true, is_some, length, take, false, None};
ghost use Rattle.std.specs.FinMap.{get};
ghost use Rattle.data_tree.specs.store_outcome.Outcome.{Outcome};
ghost use Rattle.data_tree.specs.store_api.Content.{Id, same_id};
ghost use Rattle.data_tree.specs.store_api.Txs.{content_of, intact_in, tx_holdings, tx_meanings};
ghost use Rattle.data_tree.specs.data_nodes.Layout.{fan_out, ids_of, leaf, node_of, FitsPayload};
ghost use Rattle.data_tree.specs.Leaving.{DropsBlocks};
ghost use Rattle.data_tree.specs.Needs.{Sets, SetsNode};
ghost use Rattle.data_tree.specs.Roots.{IsAtLevel};
ghost use Rattle.data_tree.specs.Trees.{span, IsDepth};
ghost use Rattle.data_cuts.specs.Cutting.{OnlyBorder, IsCut, MayCut, MayCutNode, MayCutTrees};

use block_id::{BlockId, Fail, Why};
use data_tree::data_nodes::Node;
use data_tree::store_api::{Blocks, Tx};
use data_tree::{Level, drop_children, load_at, put_node, remove};
use std::alloc::Global;

/// Cuts a leaf to so many bytes.
fn cut_leaf<S: Blocks>(
    alloc: Global,
    tx: &mut Tx<S>,
    id: &BlockId,
    old: &[u8],
    n: u64,
) -> Result<(), Fail>
    requires intact { intact_in S.meanings S.holdings tx.old }
    requires there { is_some (content_of S.holdings tx.old id.now.0) ≡ true }
    requires fits { FitsPayload (S.holdings.payload tx.old.store) (leaf old.now) }
    ensures outcome { Outcome (tx_meanings S.meanings S.holdings) (n ≤ length old.now) tx.old tx.new result
        (λ _ _. SetsNode (tx_holdings S.holdings) tx.old tx.new id.now.0 (leaf (take n old.now))) }
    ensures others { (q : Id) → same_id q id.now.0 ≡ false → get tx.new.overlay q ≡ get tx.old.overlay q }
    ensures drops { DropsBlocks S.holdings tx.old tx.new }
{
    if n > old.len() as u64 {
        return Err(Fail::Violation(Why::Structure));
    }
    let new = match old[..n as usize].to_vec(alloc) {
        Ok(new) => new,
        Err(_) => return Err(Fail::Memory),
    };
    match put_node(alloc, tx, id, &Node::Leaf(new)) {
        Ok(()) => Ok(()),
        Err(_) => Err(Fail::Memory),
    }
}

/// Cuts a tree to so many bytes.
#[cycle(cut)]
fn cut_below<S: Blocks>(
    alloc: Global,
    tx: &mut Tx<S>,
    id: &BlockId,
    level: Level,
    n: u64,
) -> Result<(), Fail>
    requires intact { intact_in S.meanings S.holdings tx.old }
    requires level { level.room ≡ span (S.holdings.payload tx.old.store) level.depth }
    requires some { 0 < level.depth → 0 < n }
    ensures outcome { Outcome (tx_meanings S.meanings S.holdings) (MayCut (tx_holdings S.holdings) tx.old level.depth id.now.0 n) tx.old tx.new result
        (λ m _. IsCut (tx_holdings S.holdings) tx.old tx.new level.depth id.now.0 (take n m.tree.bytes) m.tree.ids × OnlyBorder (content_of S.holdings tx.new) level.depth id.now.0 tx.old.overlay tx.new.overlay) }
    ensures drops { DropsBlocks S.holdings tx.old tx.new }
{
    match load_at(alloc, tx, id, level.depth) {
        Ok(node) => cut_in(alloc, tx, id, &node, level, n),
        Err(fail) => Err(fail),
    }
}

/// Gives an id a node that was loaded, cut to so many bytes.
#[cycle(cut)]
fn cut_in<S: Blocks>(
    alloc: Global,
    tx: &mut Tx<S>,
    id: &BlockId,
    node: &Node,
    level: Level,
    n: u64,
) -> Result<(), Fail>
    requires intact { intact_in S.meanings S.holdings tx.old }
    requires at { IsAtLevel (S.holdings.payload tx.old.store) (node_of node.now) level }
    requires there { is_some (content_of S.holdings tx.old id.now.0) ≡ true }
    requires some { 0 < level.depth → 0 < n }
    ensures outcome { Outcome (tx_meanings S.meanings S.holdings) (MayCutNode (tx_holdings S.holdings) tx.old level.depth id.now.0 (node_of node.now) n) tx.old tx.new result
        (λ m _. IsCut (tx_holdings S.holdings) tx.old tx.new level.depth id.now.0 (take n m.below.bytes) (id.now.0 ∷ m.below.ids) × OnlyBorder (content_of S.holdings tx.new) level.depth id.now.0 tx.old.overlay tx.new.overlay) }
    ensures drops { DropsBlocks S.holdings tx.old tx.new }
{
    match node {
        Node::Leaf(old) => cut_leaf(alloc, tx, id, old, n),
        Node::Inner { depth: _, children } => {
            let below = level.below(tx.payload());
            cut_children(alloc, tx, id, children, below, n)
        }
    }
}

/// Gives an id an inner node of the children that so many bytes need, drops the others and cuts the last one.
#[cycle(cut)]
fn cut_children<S: Blocks>(
    alloc: Global,
    tx: &mut Tx<S>,
    id: &BlockId,
    children: &[BlockId],
    level: Level,
    n: u64,
) -> Result<(), Fail>
    requires intact { intact_in S.meanings S.holdings tx.old }
    requires level { level.room ≡ span (S.holdings.payload tx.old.store) level.depth }
    requires there { is_some (content_of S.holdings tx.old id.now.0) ≡ true }
    requires deep { level.depth < 255 }
    requires few { length children.now ≤ fan_out (S.holdings.payload tx.old.store) }
    requires some { 0 < n }
    ensures outcome { Outcome (tx_meanings S.meanings S.holdings) (MayCutTrees (tx_holdings S.holdings) tx.old level.depth id.now.0 (ids_of children.now) n) tx.old tx.new result
        (λ m _. IsCut (tx_holdings S.holdings) tx.old tx.new (level.depth + 1) id.now.0 (take n m.trees.bytes) (id.now.0 ∷ m.trees.ids) × OnlyBorder (content_of S.holdings tx.new) (level.depth + 1) id.now.0 tx.old.overlay tx.new.overlay) }
    ensures drops { DropsBlocks S.holdings tx.old tx.new }
{
    let last = ((n - 1) / level.room) as usize;
    if last >= children.len() {
        return Err(Fail::Violation(Why::Structure));
    }
    let kept = match children[..last + 1].to_vec(alloc) {
        Ok(kept) => kept,
        Err(_) => return Err(Fail::Memory),
    };
    let node = Node::Inner {
        depth: level.depth + 1,
        children: kept,
    };
    match put_node(alloc, tx, id, &node) {
        Ok(()) => {}
        Err(_) => return Err(Fail::Memory),
    }
    match drop_children(alloc, tx, &children[last + 1..], level.depth) {
        Ok(()) => {}
        Err(fail) => return Err(fail),
    }
    cut_below(
        alloc,
        tx,
        &children[last],
        level,
        n - last as u64 * level.room,
    )
}

/// Removes a block whose node was loaded.
fn remove_loaded<S: Blocks>(tx: &mut Tx<S>, id: &BlockId) -> Result<(), Fail>
    requires { intact_in S.meanings S.holdings tx.old }
    ensures outcome { Outcome (tx_meanings S.meanings S.holdings) (is_some (content_of S.holdings tx.old id.now.0) ≡ true) tx.old tx.new result
        (λ _ _. Sets (content_of S.holdings tx.old) (content_of S.holdings tx.new) id.now.0 None) }
    ensures kept { (q : Id) → is_some (content_of S.holdings tx.new q) ≡ true → get tx.new.overlay q ≡ get tx.old.overlay q }
    ensures store { tx.new.store ≡ tx.old.store }
{
    if !tx.contains(id) {
        return Err(Fail::Violation(Why::Structure));
    }
    match remove(tx, id) {
        Ok(()) => Ok(()),
        Err(_) => Err(Fail::Memory),
    }
}

/// Gives a root the first bytes of a node that was loaded, as a tree of this depth, and drops the rest.
#[cycle(lower)]
pub fn cut_root<S: Blocks>(
    alloc: Global,
    tx: &mut Tx<S>,
    root: &BlockId,
    node: &Node,
    level: Level,
    depth: u8,
    n: u64,
) -> Result<(), Fail>
    requires intact { intact_in S.meanings S.holdings tx.old }
    requires at { IsAtLevel (S.holdings.payload tx.old.store) (node_of node.now) level }
    requires there { is_some (content_of S.holdings tx.old root.now.0) ≡ true }
    requires low { depth ≤ level.depth }
    requires deep { IsDepth (S.holdings.payload tx.old.store) depth n }
    ensures outcome { Outcome (tx_meanings S.meanings S.holdings) (MayCutNode (tx_holdings S.holdings) tx.old level.depth root.now.0 (node_of node.now) n) tx.old tx.new result
        (λ m _. IsCut (tx_holdings S.holdings) tx.old tx.new depth root.now.0 (take n m.below.bytes) (root.now.0 ∷ m.below.ids) × OnlyBorder (content_of S.holdings tx.new) depth root.now.0 tx.old.overlay tx.new.overlay) }
    ensures drops { DropsBlocks S.holdings tx.old tx.new }
{
    if level.depth == depth {
        return cut_in(alloc, tx, root, node, level, n);
    }
    match node {
        Node::Leaf(_) => Err(Fail::Violation(Why::Structure)),
        Node::Inner { depth: _, children } => {
            let below = level.below(tx.payload());
            lower(alloc, tx, root, children, below, depth, n)
        }
    }
}

/// Gives a root the first bytes of its first child, and drops the children.
#[cycle(lower)]
fn lower<S: Blocks>(
    alloc: Global,
    tx: &mut Tx<S>,
    root: &BlockId,
    children: &[BlockId],
    level: Level,
    depth: u8,
    n: u64,
) -> Result<(), Fail>
    requires intact { intact_in S.meanings S.holdings tx.old }
    requires level { level.room ≡ span (S.holdings.payload tx.old.store) level.depth }
    requires there { is_some (content_of S.holdings tx.old root.now.0) ≡ true }
    requires low { depth ≤ level.depth }
    requires some { 0 < length children.now }
    requires deep { IsDepth (S.holdings.payload tx.old.store) depth n }
    ensures outcome { Outcome (tx_meanings S.meanings S.holdings) (MayCutTrees (tx_holdings S.holdings) tx.old level.depth root.now.0 (ids_of children.now) n) tx.old tx.new result
        (λ m _. IsCut (tx_holdings S.holdings) tx.old tx.new depth root.now.0 (take n m.trees.bytes) (root.now.0 ∷ m.trees.ids) × OnlyBorder (content_of S.holdings tx.new) depth root.now.0 tx.old.overlay tx.new.overlay) }
    ensures drops { DropsBlocks S.holdings tx.old tx.new }
{
    let first = &children[0];
    let child = match load_at(alloc, tx, first, level.depth) {
        Ok(child) => child,
        Err(fail) => return Err(fail),
    };
    match cut_root(alloc, tx, root, &child, level, depth, n) {
        Ok(()) => {}
        Err(fail) => return Err(fail),
    }
    match remove_loaded(tx, first) {
        Ok(()) => {}
        Err(fail) => return Err(fail),
    }
    drop_children(alloc, tx, &children[1..], level.depth)
}
