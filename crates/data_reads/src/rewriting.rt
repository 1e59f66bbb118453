// Writing a tree anew under the id of its root.
ghost use Rattle.std.specs.Prelude.{◌≡◌, ◌≤◌, ◌<◌, ◌+◌, ◌^◌, [], ◌∷◌, true, is_some, length, IfOk, OnOk};
ghost use Rattle.block_id.specs.Contents.{written};
ghost use Rattle.data_tree.specs.store_outcome.Outcome.{Outcome};
ghost use Rattle.data_tree.specs.store_api.Content.{Id};
ghost use Rattle.data_tree.specs.store_api.Holdings.{Stays};
ghost use Rattle.data_tree.specs.store_api.Txs.{content_of, intact_in, tx_holdings, tx_meanings};
ghost use Rattle.data_tree.specs.data_nodes.Layout.{node_of, FitsPayload};
ghost use Rattle.data_reads.specs.Rewriting.{HasRootNode};
ghost use Rattle.data_tree.specs.Roots.{IsRoot, IsNewRoot, IsTooDeep};
ghost use Rattle.data_tree.specs.Trees.{span, IsDepth};

use crate::part::Part;
use crate::reading::read_in;
use block_id::{BlockId, Fail, Memory, Why};
use data_tree::data_nodes::Node;
use data_tree::store_api::{Blocks, Tx};
use data_tree::{Level, MOST_BYTES, build, depth_of, drop_in, level_for, load_root, put_node};
use std::alloc::Global;

/// A new tree for the bytes under an id that has a block.
fn put_tree<S: Blocks>(
    alloc: Global,
    tx: &mut Tx<S>,
    root: &BlockId,
    bytes: &[u8],
    level: Level,
) -> Result<(), Memory>
    requires intact { intact_in S.meanings S.holdings tx.old }
    requires there { is_some (content_of S.holdings tx.old root.now.0) ≡ true }
    requires deep { IsDepth (S.holdings.payload tx.old.store) level.depth (length bytes.now) }
    requires room { level.room ≡ span (S.holdings.payload tx.old.store) level.depth }
    ensures intact { intact_in S.meanings S.holdings tx.new }
    ensures store { tx.new.store ≡ tx.old.store }
    ensures seed { tx.new.seed ≡ tx.old.seed }
    ensures built { OnOk result (IsNewRoot (tx_holdings S.holdings) tx.old tx.new root.now.0 (root.now.0 ∷ []) bytes.now) }
{
    match build(alloc, tx, bytes, level) {
        Ok(node) => put_node(alloc, tx, root, &node),
        Err(memory) => Err(memory),
    }
}

/// A new tree for the bytes under the id of a root, in place of what stands below its node.
pub(crate) fn rewrite<S: Blocks>(
    alloc: Global,
    tx: &mut Tx<S>,
    root: &BlockId,
    node: &Node,
    bytes: &[u8],
) -> Result<(), Fail>
    requires intact { intact_in S.meanings S.holdings tx.old }
    requires there { is_some (content_of S.holdings tx.old root.now.0) ≡ true }
    requires fits { FitsPayload (S.holdings.payload tx.old.store) (node_of node.now) }
    requires small { length bytes.now ≤ 2 ^ 40 }
    ensures outcome { Outcome (tx_meanings S.meanings S.holdings) (HasRootNode (tx_holdings S.holdings) tx.old root.now.0 (node_of node.now)) tx.old tx.new result
        (λ n _. IsNewRoot (tx_holdings S.holdings) tx.old tx.new root.now.0 (root.now.0 ∷ n.ids) bytes.now) }
    ensures below { Stays S.holdings tx.old.store tx.new.store }
{
    let level = level_for(tx.payload(), bytes.len() as u64);
    match put_tree(alloc, tx, root, bytes, level) {
        Ok(()) => drop_in(alloc, tx, node, depth_of(node)),
        Err(_) => Err(Fail::Memory),
    }
}

/// The root's node, and all bytes of its tree.
pub(crate) fn read_root<S: Blocks>(
    alloc: Global,
    tx: &mut Tx<S>,
    root: &BlockId,
) -> Result<(Node, Vec<u8>), Fail>
    requires { intact_in S.meanings S.holdings tx.old }
    ensures outcome { Outcome (tx_meanings S.meanings S.holdings) (IsRoot (tx_holdings S.holdings) tx.old root.now.0) tx.old tx.new result
        (λ n found. (S.holdings.told tx.old.store ≡ true) × ((node_of found.0 ≡ n.tree.node) × (found.1.items ≡ n.bytes))) }
    ensures shallow { S.meanings.sound tx.old.store → S.meanings.forgeries tx.new.store ≤ S.meanings.forgeries tx.old.store
        → OnOk result (IsTooDeep (tx_holdings S.holdings) tx.old root.now.0 → ⊥) }
    ensures stays { Stays (tx_holdings S.holdings) tx.old tx.new }
    ensures below { Stays S.holdings tx.old.store tx.new.store }
    ensures there { OnOk result (is_some (content_of S.holdings tx.old root.now.0) ≡ true) }
    ensures fits { IfOk result (λ found. FitsPayload (S.holdings.payload tx.old.store) (node_of found.0)) }
    ensures few { IfOk result (λ found. length found.1.items ≤ 2 ^ 40) }
{
    let (node, level) = match load_root(alloc, tx, root) {
        Ok(found) => found,
        Err(fail) => return Err(fail),
    };
    let mut bytes = Vec::new(alloc);
    let part = Part {
        from: 0,
        to: u64::MAX,
    };
    match read_in(alloc, tx, &node, level, part, &mut bytes) {
        Ok(()) => {}
        Err(fail) => return Err(fail),
    }
    if bytes.len() as u64 > MOST_BYTES {
        return Err(Fail::Violation(Why::Structure));
    }
    Ok((node, bytes))
}

/// Has the bytes stand from a place on, with zeros between the old end and there.
pub(crate) fn overwrite(
    alloc: Global,
    all: &mut Vec<u8>,
    from: u64,
    bytes: &[u8],
) -> Result<(), Memory>
    requires small { from + length bytes.now ≤ 2 ^ 40 }
    requires some { 0 < length bytes.now }
    requires few { length all.old.items ≤ 2 ^ 40 }
    ensures few { OnOk result (length all.new.items ≤ 2 ^ 40) }
    ensures items { OnOk result (all.new.items ≡ written all.old.items from bytes.now) }
{
    let start = from as usize;
    let end = (start + bytes.len()).min(all.len());
    let tail = all[end..].to_vec(alloc)?;
    all.resize(start, 0)?;
    all.extend_from_slice(bytes)?;
    all.extend_from_slice(&tail)?;
    Ok(())
}
