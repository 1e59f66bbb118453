// The length of what a tree holds.
ghost use Rattle.std.specs.Prelude.{◌≡◌, ◌≤◌, ◌<◌, ◌^◌, ◌+◌, ◌*◌, true, is_some, length, IfOk, OnOk};
ghost use Rattle.data_tree.specs.store_outcome.Outcome.{Outcome};
ghost use Rattle.data_tree.specs.store_api.Holdings.{Stays};
ghost use Rattle.data_tree.specs.store_api.Txs.{LoadsBelow, intact_in, tx_holdings, tx_meanings};
ghost use Rattle.data_tree.specs.data_nodes.Layout.{node_of};
ghost use Rattle.data_tree.specs.Needs.{HasTree, HasBelow};
ghost use Rattle.data_tree.specs.Roots.{IsAtLevel};
ghost use Rattle.data_tree.specs.Trees.{span};

use block_id::{BlockId, Fail};
use data_tree::data_nodes::Node;
use data_tree::store_api::{Blocks, Tx};
use data_tree::{Level, load_at};
use std::alloc::Global;

#[cycle(len)]
fn len_below<S: Blocks>(
    alloc: Global,
    tx: &mut Tx<S>,
    id: &BlockId,
    level: Level,
) -> Result<u64, Fail>
    requires intact { intact_in S.meanings S.holdings tx.old }
    requires level { level.room ≡ span (S.holdings.payload tx.old.store) level.depth }
    requires small { level.room < 2 ^ 63 }
    ensures outcome { Outcome (tx_meanings S.meanings S.holdings) (HasTree (tx_holdings S.holdings) tx.old level.depth id.now.0) tx.old tx.new result (λ n len. len ≡ length n.bytes) }
    ensures most { IfOk result (λ len. len ≤ level.room) }
    ensures stays { Stays (tx_holdings S.holdings) tx.old tx.new }
    ensures leaves { LoadsBelow S.holdings tx.old tx.new }
{
    match load_at(alloc, tx, id, level.depth) {
        Ok(node) => len_in(alloc, tx, &node, level),
        Err(fail) => Err(fail),
    }
}

/// The length of what stands below a node.
#[cycle(len)]
pub fn len_in<S: Blocks>(
    alloc: Global,
    tx: &mut Tx<S>,
    node: &Node,
    level: Level,
) -> Result<u64, Fail>
    requires intact { intact_in S.meanings S.holdings tx.old }
    requires small { level.room < 2 ^ 63 }
    requires at { IsAtLevel (S.holdings.payload tx.old.store) (node_of node.now) level }
    ensures outcome { Outcome (tx_meanings S.meanings S.holdings) (HasBelow (tx_holdings S.holdings) tx.old level.depth (node_of node.now)) tx.old tx.new result (λ n len. len ≡ length n.bytes) }
    ensures most { IfOk result (λ len. len ≤ level.room) }
    ensures stays { Stays (tx_holdings S.holdings) tx.old tx.new }
    ensures leaves { LoadsBelow S.holdings tx.old tx.new }
{
    match node {
        Node::Leaf(bytes) => Ok(bytes.len() as u64),
        Node::Inner { depth: _, children } => {
            let below = level.below(tx.payload());
            let before = children.len() - 1;
            match len_below(alloc, tx, &children[before], below) {
                Ok(len) => Ok(before as u64 * below.room + len),
                Err(fail) => Err(fail),
            }
        }
    }
}
