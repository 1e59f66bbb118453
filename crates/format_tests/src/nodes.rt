// Nodes as bytes, at the bounds of the smallest and the default block.
ghost use Rattle.std.specs.Prelude.{length};
ghost use Rattle.data_nodes.specs.Layout.{FitsPayload, node_of};

use crate::rows::tell;
use crate::words::{bytes_of, say};
use block_id::{MAX_BLOCK, MIN_PAYLOAD};
use data_nodes::{Node, read_head, read_node, write_node};
use std::alloc::Global;
use std::test::Fail;

/// The depth and the size that a front tells.
fn head_of(alloc: Global, front: &[u8]) -> Result<String, Fail> {
    match read_head(front) {
        Some(head) => Ok(format!(in alloc; "{} {}", head.depth, head.size)?),
        None => say(alloc, "none"),
    }
}

/// The head of a payload that begins so.
pub(crate) fn head(alloc: Global, front: &str) -> Result<String, Fail> {
    let front = bytes_of(alloc, front)?;
    head_of(alloc, &front)
}

/// Whether a node is written as this payload.
fn is_written(alloc: Global, node: &Node, payload: &[u8]) -> Result<bool, Fail>
    requires { FitsPayload (length payload.now) (node_of node.now) }
{
    if payload.len() < MIN_PAYLOAD as usize || payload.len() > MAX_BLOCK as usize {
        return Ok(false);
    }
    let written = write_node(alloc, node, payload.len())?;
    Ok(written.as_slice() == payload)
}

/// What a node has, and what the first eight bytes of its payload tell.
fn told(alloc: Global, node: &Node, payload: &[u8]) -> Result<String, Fail> {
    let head = head_of(alloc, payload.get(..8).unwrap_or(payload))?;
    Ok(match node {
        Node::Leaf(bytes) => format!(in alloc; "leaf {}, head {head}", bytes.len()),
        Node::Inner { depth, children } => {
            format!(in alloc; "inner {depth} {}, head {head}", children.len())
        }
    }?)
}

/// The node of a payload, which is written so again.
pub(crate) fn node(alloc: Global, payload: &str) -> Result<String, Fail> {
    let payload = bytes_of(alloc, payload)?;
    let Some(node) = read_node(alloc, &payload)? else {
        return say(alloc, "none");
    };
    if is_written(alloc, &node, &payload)? {
        told(alloc, &node, &payload)
    } else {
        say(alloc, "it is written otherwise")
    }
}

const NODES: &str = "node 0000000002000000+6162+00*40 = leaf 2, head 0 2
node 0000000002000000+6162+00*39+01 = none
node 0000000000000000+00*42 = leaf 0, head 0 0
node 000000002a000000+07*42 = leaf 42, head 0 42
node 00000000aa3f0000+07*16298 = leaf 16298, head 0 16298
node 0000000101000000+09*16+00*26 = inner 1 1, head 1 1
node 0000000302000000+09*32+00*10 = inner 3 2, head 3 2
node 000000ff02000000+09*32+00*10 = inner 255 2, head 255 2
node 000000fffa030000+09*16288+00*10 = inner 255 1018, head 255 1018
head 0000000000000000 = 0 0
head 00000000020000006162 = 0 2
head 000000ff01020000 = 255 513
head 000000010000018007 = 1 2147549184
head - = none
head 00000000000000 = none
head 0100000002000000 = none
head 0001000002000000 = none
head 0000010002000000 = none";

#[test]
fn nodes_lie_as_said(rt: HostRuntime) -> Result<(), Fail> {
    tell(&rt, NODES)
}
