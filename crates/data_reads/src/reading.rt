// Reading a part of a tree.
ghost use Rattle.std.specs.Prelude.{◌≡◌, ◌≤◌, ◌<◌, ◌++◌, true, is_some, length, IfOk, OnOk};
ghost use Rattle.data_tree.specs.store_outcome.Outcome.{Outcome};
ghost use Rattle.data_tree.specs.store_api.Holdings.{Stays};
ghost use Rattle.data_tree.specs.store_api.Txs.{intact_in, tx_holdings, tx_meanings};
ghost use Rattle.data_tree.specs.data_nodes.Layout.{ids_of, node_of, FitsPayload};
ghost use Rattle.data_tree.specs.Needs.{HasTree, HasTrees, HasBelow};
ghost use Rattle.data_tree.specs.Trees.{span, depth_in};
ghost use Rattle.data_reads.specs.Reading.{between};

use crate::part::{Part, append_part};
use block_id::{BlockId, Fail};
use data_tree::data_nodes::Node;
use data_tree::store_api::{Blocks, Tx};
use data_tree::{Level, load_at};
use std::alloc::Global;

/// Appends a part of the bytes of a tree.
#[cycle(read)]
pub fn read_below<S: Blocks>(
    alloc: Global,
    tx: &mut Tx<S>,
    id: &BlockId,
    level: Level,
    part: Part,
    out: &mut Vec<u8>,
) -> Result<(), Fail>
    requires intact { intact_in S.meanings S.holdings tx.old }
    requires level { level.room ≡ span (S.holdings.payload tx.old.store) level.depth }
    ensures outcome { Outcome (tx_meanings S.meanings S.holdings) (HasTree (tx_holdings S.holdings) tx.old level.depth id.now.0) tx.old tx.new result
        (λ n _. out.new.items ≡ out.old.items ++ between part.from part.to n.bytes) }
    ensures stays { Stays (tx_holdings S.holdings) tx.old tx.new }
    ensures below { Stays S.holdings tx.old.store tx.new.store }
    ensures overlay { tx.new.overlay ≡ tx.old.overlay }
{
    if part.to <= part.from || level.room <= part.from {
        return Ok(());
    }
    match load_at(alloc, tx, id, level.depth) {
        Ok(node) => read_in(alloc, tx, &node, level, part, out),
        Err(fail) => Err(fail),
    }
}

/// Appends a part of the bytes of a tree whose node was loaded.
#[cycle(read)]
pub fn read_in<S: Blocks>(
    alloc: Global,
    tx: &mut Tx<S>,
    node: &Node,
    level: Level,
    part: Part,
    out: &mut Vec<u8>,
) -> Result<(), Fail>
    requires intact { intact_in S.meanings S.holdings tx.old }
    requires level { level.room ≡ span (S.holdings.payload tx.old.store) level.depth }
    requires fits { FitsPayload (S.holdings.payload tx.old.store) (node_of node.now) }
    requires depth { depth_in (node_of node.now) ≡ level.depth }
    ensures outcome { Outcome (tx_meanings S.meanings S.holdings) (HasBelow (tx_holdings S.holdings) tx.old level.depth (node_of node.now)) tx.old tx.new result
        (λ n _. out.new.items ≡ out.old.items ++ between part.from part.to n.bytes) }
    ensures stays { Stays (tx_holdings S.holdings) tx.old tx.new }
    ensures below { Stays S.holdings tx.old.store tx.new.store }
    ensures overlay { tx.new.overlay ≡ tx.old.overlay }
{
    match node {
        Node::Leaf(bytes) => match append_part(bytes, part, out) {
            Ok(()) => Ok(()),
            Err(_) => Err(Fail::Memory),
        },
        Node::Inner { depth: _, children } => {
            let below = level.below(tx.payload());
            read_children(alloc, tx, children, below, part, out)
        }
    }
}

/// Appends a part of the bytes of the trees that stand side by side.
#[cycle(read)]
fn read_children<S: Blocks>(
    alloc: Global,
    tx: &mut Tx<S>,
    children: &[BlockId],
    level: Level,
    part: Part,
    out: &mut Vec<u8>,
) -> Result<(), Fail>
    requires intact { intact_in S.meanings S.holdings tx.old }
    requires level { level.room ≡ span (S.holdings.payload tx.old.store) level.depth }
    ensures outcome { Outcome (tx_meanings S.meanings S.holdings) (HasTrees (tx_holdings S.holdings) tx.old level.depth (ids_of children.now)) tx.old tx.new result
        (λ n _. out.new.items ≡ out.old.items ++ between part.from part.to n.bytes) }
    ensures stays { Stays (tx_holdings S.holdings) tx.old tx.new }
    ensures below { Stays S.holdings tx.old.store tx.new.store }
    ensures overlay { tx.new.overlay ≡ tx.old.overlay }
{
    let mut rest = part;
    for child in children {
        match read_below(alloc, tx, child, level, rest, out) {
            Ok(()) => {}
            Err(fail) => return Err(fail),
        }
        rest = rest.after(level.room);
    }
    Ok(())
}
