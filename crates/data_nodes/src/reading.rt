// Reading a node from a payload.
ghost use Rattle.std.specs.Prelude.{◌≡◌, ◌*◌, List, ℕ, length, IfOk, IfSome, Some};
ghost use Rattle.std.specs.Option.{option_map};
ghost use Rattle.data_nodes.specs.Layout.{NodeText, IsNode, node_of, ids_of};
ghost use Rattle.data_nodes.specs.Reading.{is_zeros, leaf_in, inner_in, node_at, cut};

use crate::Node;
use crate::head::read_head;
use crate::node::{HEADER_LEN, ID_LEN};
use block_id::{BlockId, Memory};
use std::alloc::Global;

/// The node that a payload holds, or None where it holds none. A payload of any length is taken.
pub fn read_node(alloc: Global, payload: &[u8]) -> Result<Option<Node>, Memory>
    // What is read is written so.
    ensures found { IfOk result (λ answer. IfSome answer (λ node. IsNode payload.now (node_of node))) }
    // What is written so is read. So None comes only off the layout, and no payload holds a second node.
    ensures only { IfOk result (λ answer. (node : NodeText) → IsNode payload.now node → option_map node_of answer ≡ Some node) }
{
    node_from(alloc, payload)
}

/// A payload holds one node at most.
pub fn one_reading()
    ensures { (payload : List ℕ) (one other : NodeText) → IsNode payload one → IsNode payload other → one ≡ other }
{}

fn node_from(alloc: Global, payload: &[u8]) -> Result<Option<Node>, Memory>
    ensures { IfOk result (λ answer. option_map node_of answer ≡ node_at payload.now) }
{
    let Some(head) = read_head(payload) else {
        return Ok(None);
    };
    let contents = &payload[HEADER_LEN..];
    let size = head.size as usize;
    if head.depth == 0 {
        leaf_from(alloc, size, contents)
    } else {
        inner_from(alloc, head.depth, size, contents)
    }
}

#[tactic(auto, unfolding(crate::specs::Reading::leaf_in))]
fn leaf_from(alloc: Global, size: usize, contents: &[u8]) -> Result<Option<Node>, Memory>
    ensures { IfOk result (λ answer. option_map node_of answer ≡ leaf_in size contents.now) }
{
    if size > contents.len() {
        return Ok(None);
    }
    let (bytes, fill) = contents.split_at(size);
    if !are_zeros(fill) {
        return Ok(None);
    }
    Ok(Some(Node::Leaf(Vec::from_slice(alloc, bytes)?)))
}

#[tactic(auto, unfolding(crate::specs::Reading::inner_in))]
fn inner_from(
    alloc: Global,
    depth: u8,
    size: usize,
    contents: &[u8],
) -> Result<Option<Node>, Memory>
    ensures { IfOk result (λ answer. option_map node_of answer ≡ inner_in depth size contents.now) }
{
    if size == 0 || size > contents.len() / ID_LEN {
        return Ok(None);
    }
    let (ids, fill) = contents.split_at(size * ID_LEN);
    if !are_zeros(fill) {
        return Ok(None);
    }
    let children = ids_from(alloc, size, ids)?;
    Ok(Some(Node::Inner { depth, children }))
}

/// It has no early end, so that the compiler takes many bytes in one step.
fn are_zeros(bytes: &[u8]) -> bool
    ensures { result ≡ is_zeros bytes.now }
{
    bytes.iter().fold(0, |any, byte| any | *byte) == 0
}

/// The ids that stand one after the other.
fn ids_from(alloc: Global, count: usize, bytes: &[u8]) -> Result<Vec<BlockId>, Memory>
    requires { length bytes.now ≡ count * ID_LEN }
    ensures { IfOk result (λ ids. ids_of ids.items ≡ cut count bytes.now) }
{
    let mut ids = Vec::with_capacity(alloc, count)?;
    let mut rest = bytes;
    while let Some((id, after)) = rest.split_first_chunk::<ID_LEN>() {
        ids.push(BlockId(*id))?;
        rest = after;
    }
    Ok(ids)
}
