// Dropping a tree. Only inner nodes are loaded.
ghost use Rattle.std.specs.Prelude.{◌≡◌, [], true, is_some};
ghost use Rattle.std.specs.FinMap as fin;
ghost use Rattle.store_api.specs.store_outcome.Outcome.{Outcome};
ghost use Rattle.store_api.specs.Content.{Id};
ghost use Rattle.store_api.specs.Holdings.{Stays};
ghost use Rattle.store_api.specs.Txs.{content_of, intact_in, tx_holdings, tx_meanings};
ghost use Rattle.data_nodes.specs.Layout.{ids_of, node_of, FitsPayload};
ghost use Rattle.data_tree.specs.Needs.{HasTree, HasTrees, HasBelow};
ghost use Rattle.data_tree.specs.Trees.{Replaces, depth_in};

use crate::nodes::{load_at, remove};
use block_id::{BlockId, Fail, Why};
use data_nodes::Node;
use std::alloc::Global;
use store_api::{Blocks, Tx};

/// Drops a leaf, which isn't loaded.
fn drop_leaf<S: Blocks>(tx: &mut Tx<S>, id: &BlockId) -> Result<(), Fail>
    requires { intact_in S.meanings S.holdings tx.old }
    ensures outcome { Outcome (tx_meanings S.meanings S.holdings) (HasTree (tx_holdings S.holdings) tx.old 0 id.now.0) tx.old tx.new result
        (λ n _. Replaces (content_of S.holdings tx.old) (content_of S.holdings tx.new) n.ids []) }
    ensures store { tx.new.store ≡ tx.old.store }
    ensures seed { tx.new.seed ≡ tx.old.seed }
    ensures kept { (q : Id) → is_some (content_of S.holdings tx.new q) ≡ true → fin.get tx.new.overlay q ≡ fin.get tx.old.overlay q }
{
    if !tx.contains(id) {
        return Err(Fail::Violation(Why::Structure));
    }
    match remove(tx, id) {
        Ok(()) => Ok(()),
        Err(_) => Err(Fail::Memory),
    }
}

/// Drops a tree of this depth.
#[cycle(drop)]
fn drop_below<S: Blocks>(alloc: Global, tx: &mut Tx<S>, id: &BlockId, depth: u8) -> Result<(), Fail>
    requires { intact_in S.meanings S.holdings tx.old }
    ensures outcome { Outcome (tx_meanings S.meanings S.holdings) (HasTree (tx_holdings S.holdings) tx.old depth id.now.0) tx.old tx.new result
        (λ n _. Replaces (content_of S.holdings tx.old) (content_of S.holdings tx.new) n.ids []) }
    ensures below { Stays S.holdings tx.old.store tx.new.store }
    ensures kept { (q : Id) → is_some (content_of S.holdings tx.new q) ≡ true → fin.get tx.new.overlay q ≡ fin.get tx.old.overlay q }
{
    if depth == 0 {
        return drop_leaf(tx, id);
    }
    let node = match load_at(alloc, tx, id, depth) {
        Ok(node) => node,
        Err(fail) => return Err(fail),
    };
    match remove(tx, id) {
        Ok(()) => drop_in(alloc, tx, &node, depth),
        Err(_) => Err(Fail::Memory),
    }
}

/// Drops what stands below a node of this depth.
#[cycle(drop)]
pub fn drop_in<S: Blocks>(alloc: Global, tx: &mut Tx<S>, node: &Node, depth: u8) -> Result<(), Fail>
    requires intact { intact_in S.meanings S.holdings tx.old }
    requires fits { FitsPayload (S.holdings.payload tx.old.store) (node_of node.now) }
    requires depth { depth_in (node_of node.now) ≡ depth }
    ensures outcome { Outcome (tx_meanings S.meanings S.holdings) (HasBelow (tx_holdings S.holdings) tx.old depth (node_of node.now)) tx.old tx.new result
        (λ n _. Replaces (content_of S.holdings tx.old) (content_of S.holdings tx.new) n.ids []) }
    ensures below { Stays S.holdings tx.old.store tx.new.store }
    ensures kept { (q : Id) → is_some (content_of S.holdings tx.new q) ≡ true → fin.get tx.new.overlay q ≡ fin.get tx.old.overlay q }
{
    match node {
        Node::Leaf(_) => Ok(()),
        Node::Inner { depth: _, children } => drop_children(alloc, tx, children, depth - 1),
    }
}

/// Drops the trees that stand side by side.
#[cycle(drop)]
pub fn drop_children<S: Blocks>(
    alloc: Global,
    tx: &mut Tx<S>,
    children: &[BlockId],
    depth: u8,
) -> Result<(), Fail>
    requires { intact_in S.meanings S.holdings tx.old }
    ensures outcome { Outcome (tx_meanings S.meanings S.holdings) (HasTrees (tx_holdings S.holdings) tx.old depth (ids_of children.now)) tx.old tx.new result
        (λ n _. Replaces (content_of S.holdings tx.old) (content_of S.holdings tx.new) n.ids []) }
    ensures below { Stays S.holdings tx.old.store tx.new.store }
    ensures kept { (q : Id) → is_some (content_of S.holdings tx.new q) ≡ true → fin.get tx.new.overlay q ≡ fin.get tx.old.overlay q }
{
    for child in children {
        match drop_below(alloc, tx, child, depth) {
            Ok(()) => {}
            Err(fail) => return Err(fail),
        }
    }
    Ok(())
}
