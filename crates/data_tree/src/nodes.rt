// Nodes of a tree in the blocks of a store.
ghost use Rattle.std.specs.FinMap as fin;
ghost use Rattle.std.specs.Prelude.{◌≡◌, ◌+◌, ◌≤◌, ◌<◌, ◌^◌, ℕ, List, length, take, true, false, is_some, IfOk, IfErr, IfSome, IsSomeAnd, OnOk, None};
ghost use Rattle.store_api.specs.store_outcome.Outcome.{Outcome};
ghost use Rattle.store_api.specs.Content.{Id};
ghost use Rattle.store_api.specs.Holdings.{Stays};
ghost use Rattle.store_api.specs.Txs.{LoadsBelow, content_of, intact_in, tx_holdings, tx_meanings};
ghost use Rattle.data_nodes.specs.Layout.{NodeText, IsNode, FitsPayload, node_of, room};
ghost use Rattle.data_tree.specs.Leaving.{AddsBlocks, PutsOne};
ghost use Rattle.data_tree.specs.Needs.{HasNode, HasTree, IsHeadOf, SetsNode, Sets};
ghost use Rattle.data_tree.specs.Roots.{IsAtLevel, IsRoot, IsTooDeep};
ghost use Rattle.data_tree.specs.Trees.{IsDepth, depth_in, span};

use crate::level::{Level, depth_of, level_of};
use block_id::{BlockId, Fail, Memory, Why};
use data_nodes::{HEADER_LEN, Head, Node, read_head, read_node, write_node};
use std::alloc::Global;
use store_api::{Blocks, Tx};

/// The node that a block holds.
fn load_node<S: Blocks>(alloc: Global, tx: &mut Tx<S>, id: &BlockId) -> Result<Node, Fail>
    requires { intact_in S.meanings S.holdings tx.old }
    ensures outcome { Outcome (tx_meanings S.meanings S.holdings) (HasNode (tx_holdings S.holdings) tx.old id.now.0) tx.old tx.new result (λ n node. node_of node ≡ n.node) }
    ensures stays { Stays (tx_holdings S.holdings) tx.old tx.new }
    ensures leaves { LoadsBelow S.holdings tx.old tx.new }
    ensures there { OnOk result (is_some (content_of S.holdings tx.old id.now.0) ≡ true) }
    ensures fits { IfOk result (λ node. FitsPayload (S.holdings.payload tx.old.store) (node_of node)) }
{
    let payload = match tx.load(alloc, id)? {
        Some(payload) => payload,
        None => return Err(Fail::Violation(Why::Structure)),
    };
    match read_node(alloc, &payload)? {
        Some(node) => Ok(node),
        None => Err(Fail::Violation(Why::Structure)),
    }
}

/// The head that stands in front of a payload of this length. None where none does, or one of a leaf with more bytes than
/// the payload has room for.
fn head_in(front: &[u8], payload: usize) -> Option<Head>
    requires { HEADER_LEN ≤ payload }
    ensures fits { IfSome result (λ head. head.depth ≡ 0 → head.size ≤ room payload) }
    ensures only { (text : List ℕ) (node : NodeText) → IsNode text node → length text ≡ payload → front.now ≡ take HEADER_LEN text
        → IsSomeAnd result (λ head. IsHeadOf head node) }
{
    let head = read_head(front)?;
    if head.depth == 0 && head.size as usize > payload - HEADER_LEN {
        return None;
    }
    Some(head)
}

/// The head of the node that a block holds. The front of the block is opened, and what follows isn't looked at.
pub fn load_head<S: Blocks>(alloc: Global, tx: &mut Tx<S>, id: &BlockId) -> Result<Head, Fail>
    requires { intact_in S.meanings S.holdings tx.old }
    ensures outcome { Outcome (tx_meanings S.meanings S.holdings) (HasNode (tx_holdings S.holdings) tx.old id.now.0) tx.old tx.new result (λ n head. IsHeadOf head n.node) }
    ensures stays { Stays (tx_holdings S.holdings) tx.old tx.new }
    ensures leaves { LoadsBelow S.holdings tx.old tx.new }
    ensures there { OnOk result (is_some (content_of S.holdings tx.old id.now.0) ≡ true) }
    ensures fits { IfOk result (λ head. head.depth ≡ 0 → head.size ≤ room (S.holdings.payload tx.old.store)) }
{
    let front = match tx.load_front(alloc, id, HEADER_LEN)? {
        Some(front) => front,
        None => return Err(Fail::Violation(Why::Structure)),
    };
    match head_in(&front, tx.payload()) {
        Some(head) => Ok(head),
        None => Err(Fail::Violation(Why::Structure)),
    }
}

/// The node of a tree of this depth. One block is loaded.
pub fn load_at<S: Blocks>(
    alloc: Global,
    tx: &mut Tx<S>,
    id: &BlockId,
    depth: u8,
) -> Result<Node, Fail>
    requires { intact_in S.meanings S.holdings tx.old }
    ensures outcome { Outcome (tx_meanings S.meanings S.holdings) (HasTree (tx_holdings S.holdings) tx.old depth id.now.0) tx.old tx.new result (λ n node. node_of node ≡ n.tree.node) }
    ensures stays { Stays (tx_holdings S.holdings) tx.old tx.new }
    ensures leaves { LoadsBelow S.holdings tx.old tx.new }
    ensures there { OnOk result (is_some (content_of S.holdings tx.old id.now.0) ≡ true) }
    ensures fits { IfOk result (λ node. FitsPayload (S.holdings.payload tx.old.store) (node_of node)) }
    ensures depth { IfOk result (λ node. depth_in (node_of node) ≡ depth) }
{
    let node = load_node(alloc, tx, id)?;
    if depth_of(&node) != depth {
        return Err(Fail::Violation(Why::Structure));
    }
    Ok(node)
}

/// The root's node and its level. One block is loaded.
pub fn load_root<S: Blocks>(
    alloc: Global,
    tx: &mut Tx<S>,
    root: &BlockId,
) -> Result<(Node, Level), Fail>
    requires { intact_in S.meanings S.holdings tx.old }
    ensures outcome { Outcome (tx_meanings S.meanings S.holdings) (IsRoot (tx_holdings S.holdings) tx.old root.now.0) tx.old tx.new result
        (λ n found. (S.holdings.told tx.old.store ≡ true) × (node_of found.0 ≡ n.tree.node)) }
    ensures shallow { S.meanings.sound tx.old.store → S.meanings.forgeries tx.new.store ≤ S.meanings.forgeries tx.old.store
        → OnOk result (IsTooDeep (tx_holdings S.holdings) tx.old root.now.0 → ⊥) }
    ensures stays { Stays (tx_holdings S.holdings) tx.old tx.new }
    ensures leaves { LoadsBelow S.holdings tx.old tx.new }
    ensures there { OnOk result (is_some (content_of S.holdings tx.old root.now.0) ≡ true) }
    ensures level { IfOk result (λ found. IsAtLevel (S.holdings.payload tx.old.store) (node_of found.0) found.1) }
    ensures small { IfOk result (λ found. found.1.room < 2 ^ 63) }
{
    let node = match load_node(alloc, tx, root) {
        Ok(node) => node,
        Err(fail) => return Err(fail),
    };
    match level_of(tx.payload(), depth_of(&node)) {
        Some(level) => Ok((node, level)),
        None => Err(Fail::Violation(Why::Structure)),
    }
}

/// Removes a block.
pub fn remove<S: Blocks>(tx: &mut Tx<S>, id: &BlockId) -> Result<(), Memory>
    requires intact { intact_in S.meanings S.holdings tx.old }
    requires there { is_some (content_of S.holdings tx.old id.now.0) ≡ true }
    ensures intact { intact_in S.meanings S.holdings tx.new }
    ensures store { tx.new.store ≡ tx.old.store }
    ensures seed { tx.new.seed ≡ tx.old.seed }
    ensures sets { OnOk result (Sets (content_of S.holdings tx.old) (content_of S.holdings tx.new) id.now.0 None) }
    ensures kept { (q : Id) → is_some (content_of S.holdings tx.new q) ≡ true → fin.get tx.new.overlay q ≡ fin.get tx.old.overlay q }
{
    tx.remove(id)
}

/// Gives a block, which is there, this node.
pub fn put_node<S: Blocks>(
    alloc: Global,
    tx: &mut Tx<S>,
    id: &BlockId,
    node: &Node,
) -> Result<(), Memory>
    requires intact { intact_in S.meanings S.holdings tx.old }
    requires there { is_some (content_of S.holdings tx.old id.now.0) ≡ true }
    requires fits { FitsPayload (S.holdings.payload tx.old.store) (node_of node.now) }
    ensures intact { intact_in S.meanings S.holdings tx.new }
    ensures sets { OnOk result (SetsNode (tx_holdings S.holdings) tx.old tx.new id.now.0 (node_of node.now)) }
    ensures there { (q : Id) → is_some (content_of S.holdings tx.old q) ≡ true → is_some (content_of S.holdings tx.new q) ≡ true }
    ensures puts { PutsOne tx.old tx.new id.now.0 }
{
    let payload = write_node(alloc, node, tx.payload())?;
    tx.put(id, payload)
}

/// Gives a new block this node.
pub fn put_new<S: Blocks>(alloc: Global, tx: &mut Tx<S>, node: &Node) -> Result<BlockId, Memory>
    requires intact { intact_in S.meanings S.holdings tx.old }
    requires fits { FitsPayload (S.holdings.payload tx.old.store) (node_of node.now) }
    ensures intact { intact_in S.meanings S.holdings tx.new }
    ensures adds { AddsBlocks S.holdings tx.old tx.new }
    ensures new { IfOk result (λ id. content_of S.holdings tx.old id.0 ≡ None) }
    ensures sets { IfOk result (λ id. SetsNode (tx_holdings S.holdings) tx.old tx.new id.0 (node_of node.now)) }
{
    let payload = write_node(alloc, node, tx.payload())?;
    match tx.add(payload) {
        Ok(id) => Ok(id),
        Err(memory) => Err(memory),
    }
}
