// Appending bytes to a tree: only its right border is loaded, and new blocks stand behind it.
ghost use Rattle.std.specs.Prelude.{◌≡◌, ◌⊎◌, ◌≤◌, ◌<◌, ◌+◌, ◌-◌, ◌*◌, ◌++◌, ◌^◌, ℕ, List, true, is_some, length, take, min, IfOk, OnOk};
ghost use Rattle.std.specs.FinMap.{get};
ghost use Rattle.data_tree.specs.store_outcome.Outcome.{Outcome};
ghost use Rattle.data_tree.specs.store_api.Content.{Id};
ghost use Rattle.data_tree.specs.store_api.Txs.{content_of, intact_in, tx_holdings, tx_meanings};
ghost use Rattle.data_tree.specs.data_nodes.Layout.{fan_out, ids_of, leaf, node_of};
ghost use Rattle.data_tree.specs.Leaving.{AddsBlocks, KeepsBlocks};
ghost use Rattle.data_tree.specs.Needs.{HasBelow, HasTrees};
ghost use Rattle.data_tree.specs.Roots.{IsAtLevel};
ghost use Rattle.data_tree.specs.Trees.{span, depth_in};
ghost use Rattle.data_tree.specs.Border.{OnBorderBelow, OnLastBorder};
ghost use Rattle.data_growth.specs.Growing.{ChildrenTake, Grown, GrownChildren, GrownTrees, IsChildCount, TakesBytes};

use block_id::{BlockId, Fail, Memory};
use data_tree::data_nodes::Node;
use data_tree::store_api::{Blocks, Tx};
use data_tree::{Level, build_children, load_at, put_node};
use std::alloc::Global;

/// A leaf with as many of the bytes behind its own as it has room for, and how many these are.
fn grown_leaf(alloc: Global, old: &[u8], room: u64, bytes: &[u8]) -> Result<(Node, usize), Memory>
    requires { length old.now ≤ room }
    ensures used { IfOk result (λ grown. grown.1 ≡ min (room - length old.now) (length bytes.now)) }
    ensures node { IfOk result (λ grown. node_of grown.0 ≡ leaf (old.now ++ take grown.1 bytes.now)) }
{
    let used = (room as usize - old.len()).min(bytes.len());
    let mut all = Vec::with_capacity(alloc, old.len() + used)?;
    all.extend_from_slice(old)?;
    all.extend_from_slice(&bytes[..used])?;
    Ok((Node::Leaf(all), used))
}

/// Children with new trees behind them for as many of the bytes as there are places for, and how many these are.
pub(crate) fn grown_children<S: Blocks>(
    alloc: Global,
    tx: &mut Tx<S>,
    children: &[BlockId],
    level: Level,
    places: u64,
    bytes: &[u8],
) -> Result<(Vec<BlockId>, usize), Memory>
    requires intact { intact_in S.meanings S.holdings tx.old }
    requires level { level.room ≡ span (S.holdings.payload tx.old.store) level.depth }
    requires room { 0 < level.room }
    requires places { length children.now + places ≤ fan_out (S.holdings.payload tx.old.store) }
    requires small { fan_out (S.holdings.payload tx.old.store) * level.room < 2 ^ 64 }
    ensures intact { intact_in S.meanings S.holdings tx.new }
    ensures adds { AddsBlocks S.holdings tx.old tx.new }
    ensures children { IfOk result (λ grown. GrownChildren (tx_holdings S.holdings) tx.old tx.new level places children.now bytes.now grown.0.items grown.1) }
{
    let used = (places * level.room).min(bytes.len() as u64) as usize;
    let new = build_children(alloc, tx, &bytes[..used], level)?;
    let mut all = Vec::with_capacity(alloc, children.len())?;
    all.extend_from_slice(children)?;
    all.extend_from_slice(&new)?;
    Ok((all, used))
}

/// A node with as many of the bytes behind those of its tree as its level has room for, and how many these are. What stands below it is put.
#[cycle(grow)]
pub fn grown_node<S: Blocks>(
    alloc: Global,
    tx: &mut Tx<S>,
    node: &Node,
    level: Level,
    bytes: &[u8],
) -> Result<(Node, usize), Fail>
    requires intact { intact_in S.meanings S.holdings tx.old }
    requires at { IsAtLevel (S.holdings.payload tx.old.store) (node_of node.now) level }
    ensures outcome { Outcome (tx_meanings S.meanings S.holdings) (HasBelow (tx_holdings S.holdings) tx.old level.depth (node_of node.now)) tx.old tx.new result
        (λ n grown. Grown (tx_holdings S.holdings) tx.old tx.new level.depth (node_of grown.0) (n.bytes ++ take grown.1 bytes.now) n.ids
        × (grown.1 < length bytes.now → length n.bytes + grown.1 ≡ level.room)) }
    ensures only { HasBelow (tx_holdings S.holdings) tx.old level.depth (node_of node.now) → S.meanings.sound tx.old.store → S.meanings.forgeries tx.new.store ≤ S.meanings.forgeries tx.old.store
        → (q : Id) → is_some (content_of S.holdings tx.old q) ≡ true → (get tx.new.overlay q ≡ get tx.old.overlay q) ⊎ OnBorderBelow (content_of S.holdings tx.old) level.depth (node_of node.now) q }
    ensures took { IfOk result (λ grown. TakesBytes (S.holdings.payload tx.old.store) (node_of grown.0) grown.1 (length bytes.now)) }
    ensures depth { IfOk result (λ grown. depth_in (node_of grown.0) ≡ level.depth) }
    ensures keeps { KeepsBlocks S.holdings tx.old tx.new }
{
    match node {
        Node::Leaf(old) => match grown_leaf(alloc, old, level.room, bytes) {
            Ok(grown) => Ok(grown),
            Err(_) => Err(Fail::Memory),
        },
        Node::Inner { depth, children } => {
            let below = level.below(tx.payload());
            match grown_inner(alloc, tx, children, below, bytes) {
                Ok((children, used)) => Ok((
                    Node::Inner {
                        depth: *depth,
                        children,
                    },
                    used,
                )),
                Err(fail) => Err(fail),
            }
        }
    }
}

/// The children of a node, the last of them grown, with new ones behind it.
#[cycle(grow)]
fn grown_inner<S: Blocks>(
    alloc: Global,
    tx: &mut Tx<S>,
    children: &[BlockId],
    level: Level,
    bytes: &[u8],
) -> Result<(Vec<BlockId>, usize), Fail>
    requires intact { intact_in S.meanings S.holdings tx.old }
    requires level { level.room ≡ span (S.holdings.payload tx.old.store) level.depth }
    requires small { fan_out (S.holdings.payload tx.old.store) * level.room < 2 ^ 64 }
    requires count { IsChildCount (S.holdings.payload tx.old.store) (length children.now) }
    ensures outcome { Outcome (tx_meanings S.meanings S.holdings) (HasTrees (tx_holdings S.holdings) tx.old level.depth (ids_of children.now)) tx.old tx.new result
        (λ n grown. GrownTrees (tx_holdings S.holdings) tx.old tx.new level.depth (ids_of grown.0.items) (n.bytes ++ take grown.1 bytes.now) n.ids
        × (grown.1 < length bytes.now → length n.bytes + grown.1 ≡ fan_out (S.holdings.payload tx.old.store) * level.room)) }
    ensures only { HasTrees (tx_holdings S.holdings) tx.old level.depth (ids_of children.now) → S.meanings.sound tx.old.store → S.meanings.forgeries tx.new.store ≤ S.meanings.forgeries tx.old.store
        → (q : Id) → is_some (content_of S.holdings tx.old q) ≡ true → (get tx.new.overlay q ≡ get tx.old.overlay q) ⊎ OnLastBorder (content_of S.holdings tx.old) level.depth (ids_of children.now) q }
    ensures took { IfOk result (λ grown. ChildrenTake (S.holdings.payload tx.old.store) (length grown.0.items) grown.1 (length bytes.now)) }
    ensures keeps { KeepsBlocks S.holdings tx.old tx.new }
{
    let places = (tx.payload() as u64 - 8) / 16 - children.len() as u64;
    let last = children.len() - 1;
    let child = match load_at(alloc, tx, &children[last], level.depth) {
        Ok(child) => child,
        Err(fail) => return Err(fail),
    };
    let (grown, used) = match grown_node(alloc, tx, &child, level, bytes) {
        Ok(grown) => grown,
        Err(fail) => return Err(fail),
    };
    match put_node(alloc, tx, &children[last], &grown) {
        Ok(()) => {}
        Err(_) => return Err(Fail::Memory),
    }
    match grown_children(alloc, tx, children, level, places, &bytes[used..]) {
        Ok((all, more)) => Ok((all, used + more)),
        Err(_) => Err(Fail::Memory),
    }
}
