// Writing inside the length of a tree: only leaves change, and every id stays.
ghost use Rattle.std.specs.Prelude.{◌≡◌, ◌⊎◌, ◌≤◌, ◌<◌, ◌+◌, ◌*◌, ℕ, List, true, is_some, length, IfOk, OnOk, Some};
ghost use Rattle.std.specs.FinMap as fin;
ghost use Rattle.std.specs.FinMap.{get};
ghost use Rattle.data_tree.specs.store_outcome.Outcome.{Outcome};
ghost use Rattle.data_tree.specs.store_api.Content.{Id};
ghost use Rattle.data_tree.specs.store_api.Txs.{content_of, intact_in, tx_holdings, tx_meanings};
ghost use Rattle.data_tree.specs.data_nodes.Layout.{room, fan_out, ids_of, node_of, leaf, FitsPayload};
ghost use Rattle.data_tree.specs.Leaving.{KeepsBlocks};
ghost use Rattle.data_tree.specs.Needs.{SetsNode};
ghost use Rattle.data_tree.specs.Roots.{IsAtLevel};
ghost use Rattle.data_tree.specs.Trees.{span};
ghost use Rattle.data_writes.specs.Leaves.{OnlyLeaves, OnlyAmong};
ghost use Rattle.data_writes.specs.Writing.{LeafCost, MayWrite, MayWriteNode, MayWriteTrees, WroteTree, WroteTrees, written_at};

use block_id::{BlockId, Fail, Memory, Why};
use data_tree::data_nodes::Node;
use data_tree::store_api::{Blocks, Tx};
use data_tree::{Level, load_at, put_node};
use std::alloc::Global;

/// The list with these bytes from a place on.
fn replaced(alloc: Global, old: &[u8], start: usize, bytes: &[u8]) -> Result<Vec<u8>, Memory>
    requires { start + length bytes.now ≤ length old.now }
    ensures { IfOk result (λ new. new.items ≡ written_at start bytes.now old.now) }
{
    let mut new = Vec::with_capacity(alloc, old.len())?;
    new.extend_from_slice(&old[..start])?;
    new.extend_from_slice(bytes)?;
    new.extend_from_slice(&old[start + bytes.len()..])?;
    Ok(new)
}

/// Gives a leaf the bytes from a place on.
fn write_leaf<S: Blocks>(
    alloc: Global,
    tx: &mut Tx<S>,
    id: &BlockId,
    old: &[u8],
    from: u64,
    bytes: &[u8],
) -> Result<(), Fail>
    requires intact { intact_in S.meanings S.holdings tx.old }
    requires there { is_some (content_of S.holdings tx.old id.now.0) ≡ true }
    requires fits { FitsPayload (S.holdings.payload tx.old.store) (leaf old.now) }
    ensures outcome { Outcome (tx_meanings S.meanings S.holdings) (from + length bytes.now ≤ length old.now) tx.old tx.new result
        (λ _ _. SetsNode (tx_holdings S.holdings) tx.old tx.new id.now.0 (leaf (written_at from bytes.now old.now))) }
    ensures others { (q : Id) → (get tx.new.overlay q ≡ get tx.old.overlay q) ⊎ ((q ≡ id.now.0) × (from + length bytes.now ≤ length old.now)) }
    ensures few { (fin.len tx.new.overlay ≤ fin.len tx.old.overlay) ⊎ ((fin.len tx.new.overlay ≤ fin.len tx.old.overlay + 1) × (from + length bytes.now ≤ length old.now)) }
    ensures keeps { KeepsBlocks S.holdings tx.old tx.new }
{
    let start = from as usize;
    if start > old.len() || bytes.len() > old.len() - start {
        return Err(Fail::Violation(Why::Structure));
    }
    let new = match replaced(alloc, old, start, bytes) {
        Ok(new) => new,
        Err(_) => return Err(Fail::Memory),
    };
    match put_node(alloc, tx, id, &Node::Leaf(new)) {
        Ok(()) => Ok(()),
        Err(_) => Err(Fail::Memory),
    }
}

/// Has the bytes stand from a place on in a tree.
#[cycle(write)]
pub fn write_below<S: Blocks>(
    alloc: Global,
    tx: &mut Tx<S>,
    id: &BlockId,
    level: Level,
    from: u64,
    bytes: &[u8],
) -> Result<(), Fail>
    requires intact { intact_in S.meanings S.holdings tx.old }
    requires level { level.room ≡ span (S.holdings.payload tx.old.store) level.depth }
    ensures outcome { Outcome (tx_meanings S.meanings S.holdings) (MayWrite (tx_holdings S.holdings) tx.old level.depth id.now.0 from (length bytes.now)) tx.old tx.new result
        (λ n _. WroteTree (tx_holdings S.holdings) tx.old tx.new level.depth id.now.0 (written_at from bytes.now n.tree.bytes) n.tree.ids) }
    ensures only { (n : MayWrite (tx_holdings S.holdings) tx.old level.depth id.now.0 from (length bytes.now)) → S.meanings.sound tx.old.store → S.meanings.forgeries tx.new.store ≤ S.meanings.forgeries tx.old.store
        → OnlyLeaves (S.holdings.payload tx.old.store) (content_of S.holdings tx.old) level.depth id.now.0 from (length bytes.now) tx.old.overlay tx.new.overlay }
    ensures cost { LeafCost (room (S.holdings.payload tx.old.store)) (fin.len tx.old.overlay) (fin.len tx.new.overlay) from (length bytes.now) level.room }
    ensures keeps { KeepsBlocks S.holdings tx.old tx.new }
{
    if bytes.is_empty() {
        return Ok(());
    }
    match load_at(alloc, tx, id, level.depth) {
        Ok(node) => write_in(alloc, tx, id, &node, level, from, bytes),
        Err(fail) => Err(fail),
    }
}

/// Has the bytes stand from a place on in a tree whose node was loaded.
#[cycle(write)]
pub fn write_in<S: Blocks>(
    alloc: Global,
    tx: &mut Tx<S>,
    id: &BlockId,
    node: &Node,
    level: Level,
    from: u64,
    bytes: &[u8],
) -> Result<(), Fail>
    requires intact { intact_in S.meanings S.holdings tx.old }
    requires at { IsAtLevel (S.holdings.payload tx.old.store) (node_of node.now) level }
    requires there { is_some (content_of S.holdings tx.old id.now.0) ≡ true }
    requires some { 0 < length bytes.now }
    ensures outcome { Outcome (tx_meanings S.meanings S.holdings) (MayWriteNode (tx_holdings S.holdings) tx.old level.depth id.now.0 (node_of node.now) from (length bytes.now)) tx.old tx.new result
        (λ n _. WroteTree (tx_holdings S.holdings) tx.old tx.new level.depth id.now.0 (written_at from bytes.now n.tree.bytes) n.tree.ids) }
    ensures only { (n : MayWriteNode (tx_holdings S.holdings) tx.old level.depth id.now.0 (node_of node.now) from (length bytes.now)) → S.meanings.sound tx.old.store → S.meanings.forgeries tx.new.store ≤ S.meanings.forgeries tx.old.store
        → OnlyLeaves (S.holdings.payload tx.old.store) (content_of S.holdings tx.old) level.depth id.now.0 from (length bytes.now) tx.old.overlay tx.new.overlay }
    ensures cost { LeafCost (room (S.holdings.payload tx.old.store)) (fin.len tx.old.overlay) (fin.len tx.new.overlay) from (length bytes.now) level.room }
    ensures keeps { KeepsBlocks S.holdings tx.old tx.new }
{
    match node {
        Node::Leaf(old) => write_leaf(alloc, tx, id, old, from, bytes),
        Node::Inner { depth: _, children } => {
            let below = level.below(tx.payload());
            write_children(alloc, tx, children, below, from, bytes)
        }
    }
}

/// Has the bytes stand from a place on in the trees that stand side by side.
#[cycle(write)]
fn write_children<S: Blocks>(
    alloc: Global,
    tx: &mut Tx<S>,
    children: &[BlockId],
    level: Level,
    from: u64,
    bytes: &[u8],
) -> Result<(), Fail>
    requires intact { intact_in S.meanings S.holdings tx.old }
    requires level { level.room ≡ span (S.holdings.payload tx.old.store) level.depth }
    requires few { length children.now ≤ fan_out (S.holdings.payload tx.old.store) }
    ensures outcome { Outcome (tx_meanings S.meanings S.holdings) (MayWriteTrees (tx_holdings S.holdings) tx.old level.depth (ids_of children.now) from (length bytes.now)) tx.old tx.new result
        (λ n _. WroteTrees (tx_holdings S.holdings) tx.old tx.new level.depth (ids_of children.now) (written_at from bytes.now n.trees.bytes) n.trees.ids) }
    ensures only { (n : MayWriteTrees (tx_holdings S.holdings) tx.old level.depth (ids_of children.now) from (length bytes.now)) → S.meanings.sound tx.old.store → S.meanings.forgeries tx.new.store ≤ S.meanings.forgeries tx.old.store
        → OnlyAmong (S.holdings.payload tx.old.store) (content_of S.holdings tx.old) level.depth (ids_of children.now) from (length bytes.now) tx.old.overlay tx.new.overlay }
    ensures cost { LeafCost (room (S.holdings.payload tx.old.store)) (fin.len tx.old.overlay) (fin.len tx.new.overlay) from (length bytes.now) (fan_out (S.holdings.payload tx.old.store) * level.room) }
    ensures keeps { KeepsBlocks S.holdings tx.old tx.new }
{
    let mut place = from;
    let mut rest = bytes;
    for child in children {
        let (now, later) = rest.split_at(
            level.room.saturating_sub(place).min(rest.len() as u64) as usize,
        );
        match write_below(alloc, tx, child, level, place, now) {
            Ok(()) => {}
            Err(fail) => return Err(fail),
        }
        place = place.saturating_sub(level.room);
        rest = later;
    }
    Ok(())
}
