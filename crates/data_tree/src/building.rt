// Building a tree of new blocks. Nothing is loaded.
ghost use Rattle.std.specs.Prelude.{◌≡◌, ◌≤◌, ◌<◌, ◌*◌, length, IfOk};
ghost use Rattle.store_api.specs.Txs.{intact_in, tx_holdings};
ghost use Rattle.data_nodes.specs.Layout.{ids_of, node_of, FitsPayload, fan_out};
ghost use Rattle.data_tree.specs.Leaving.{AddsBlocks, IsCountFor};
ghost use Rattle.data_tree.specs.Needs.{Built, BuiltTrees, NewTree};
ghost use Rattle.data_tree.specs.Trees.{span};

use crate::level::Level;
use crate::nodes::put_new;
use block_id::{BlockId, Memory};
use data_nodes::Node;
use std::alloc::Global;
use store_api::{Blocks, Tx};

/// A node of this level that holds the bytes, with new blocks for all that stands below it.
#[cycle(build)]
pub fn build<S: Blocks>(
    alloc: Global,
    tx: &mut Tx<S>,
    bytes: &[u8],
    level: Level,
) -> Result<Node, Memory>
    requires intact { intact_in S.meanings S.holdings tx.old }
    requires level { level.room ≡ span (S.holdings.payload tx.old.store) level.depth }
    requires fits { length bytes.now ≤ level.room }
    requires some { 0 < level.depth → 0 < length bytes.now }
    ensures intact { intact_in S.meanings S.holdings tx.new }
    ensures adds { AddsBlocks S.holdings tx.old tx.new }
    ensures built { IfOk result (λ node. Built (tx_holdings S.holdings) tx.old tx.new level.depth (node_of node) bytes.now) }
    ensures fits { IfOk result (λ node. FitsPayload (S.holdings.payload tx.old.store) (node_of node)) }
{
    if level.depth == 0 {
        return match bytes.to_vec(alloc) {
            Ok(bytes) => Ok(Node::Leaf(bytes)),
            Err(_) => Err(Memory),
        };
    }
    let below = level.below(tx.payload());
    match build_children(alloc, tx, bytes, below) {
        Ok(children) => Ok(Node::Inner {
            depth: level.depth,
            children,
        }),
        Err(memory) => Err(memory),
    }
}

/// A new tree of this level that holds the bytes.
#[cycle(build)]
pub fn new_below<S: Blocks>(
    alloc: Global,
    tx: &mut Tx<S>,
    bytes: &[u8],
    level: Level,
) -> Result<BlockId, Memory>
    requires intact { intact_in S.meanings S.holdings tx.old }
    requires level { level.room ≡ span (S.holdings.payload tx.old.store) level.depth }
    requires fits { length bytes.now ≤ level.room }
    requires some { 0 < level.depth → 0 < length bytes.now }
    ensures intact { intact_in S.meanings S.holdings tx.new }
    ensures adds { AddsBlocks S.holdings tx.old tx.new }
    ensures built { IfOk result (λ id. NewTree (tx_holdings S.holdings) tx.old tx.new level.depth id.0 bytes.now) }
{
    match build(alloc, tx, bytes, level) {
        Ok(node) => put_new(alloc, tx, &node),
        Err(memory) => Err(memory),
    }
}

/// New trees of this level for the bytes, as many as it takes.
#[cycle(build)]
pub fn build_children<S: Blocks>(
    alloc: Global,
    tx: &mut Tx<S>,
    bytes: &[u8],
    level: Level,
) -> Result<Vec<BlockId>, Memory>
    requires intact { intact_in S.meanings S.holdings tx.old }
    requires level { level.room ≡ span (S.holdings.payload tx.old.store) level.depth }
    requires room { 0 < level.room }
    requires fits { length bytes.now ≤ fan_out (S.holdings.payload tx.old.store) * level.room }
    ensures intact { intact_in S.meanings S.holdings tx.new }
    ensures adds { AddsBlocks S.holdings tx.old tx.new }
    ensures built { IfOk result (λ children. BuiltTrees (tx_holdings S.holdings) tx.old tx.new level.depth (ids_of children.items) bytes.now) }
    ensures count { IfOk result (λ children. IsCountFor (length children.items) (length bytes.now) level.room (fan_out (S.holdings.payload tx.old.store))) }
{
    let mut children = Vec::new(alloc);
    let mut rest = bytes;
    while !rest.is_empty() {
        let (piece, after) = rest.split_at(level.room.min(rest.len() as u64) as usize);
        let id = match new_below(alloc, tx, piece, level) {
            Ok(id) => id,
            Err(memory) => return Err(memory),
        };
        match children.push(id) {
            Ok(()) => {}
            Err(_) => return Err(Memory),
        }
        rest = after;
    }
    Ok(children)
}
