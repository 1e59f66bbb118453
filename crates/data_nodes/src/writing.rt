// Writing a node as a payload.
ghost use Rattle.std.specs.Prelude.{◌≡◌, ◌≤◌, ◌<◌, ◌^◌, ◌++◌, length, All, IfOk, OnOk};
ghost use Rattle.std.specs.List.{concat};
ghost use Rattle.data_nodes.specs.Layout.{FitsPayload, IsNode, IsPayloadLen, HasTypes, header, text_of, size_of, node_of, ids_of};

use crate::Node;
use crate::node::NODE_FORMAT;
use block_id::{BlockId, Memory};
use byte_fields::{put_id, put_u16, put_u32};
use std::alloc::Global;

/// The payload of `payload` bytes that holds the node.
pub fn write_node(alloc: Global, node: &Node, payload: usize) -> Result<Vec<u8>, Memory>
    requires payload { IsPayloadLen payload }
    requires fits { FitsPayload payload (node_of node.now) }
    ensures len { IfOk result (λ bytes. length bytes.items ≡ payload) }
    ensures node { IfOk result (λ bytes. IsNode bytes.items (node_of node.now)) }
{
    let mut out = Vec::with_capacity(alloc, payload)?;
    put_node(&mut out, node)?;
    out.resize(payload, 0)?;
    Ok(out)
}

/// Appends the node's text.
fn put_node(out: &mut Vec<u8>, node: &Node) -> Result<(), Memory>
    requires { size_of (node_of node.now) < 2 ^ 32 }
    ensures text { OnOk result (out.new.items ≡ out.old.items ++ text_of (node_of node.now)) }
    ensures types { OnOk result (HasTypes (node_of node.now)) }
{
    match node {
        Node::Leaf(bytes) => {
            put_header(out, 0, bytes.len() as u32)?;
            out.extend_from_slice(bytes)?;
        }
        Node::Inner { depth, children } => {
            put_header(out, *depth, children.len() as u32)?;
            put_ids(out, children)?;
        }
    }
    Ok(())
}

fn put_header(out: &mut Vec<u8>, depth: u8, size: u32) -> Result<(), Memory>
    ensures { OnOk result (out.new.items ≡ out.old.items ++ header depth size) }
{
    put_u16(out, NODE_FORMAT)?;
    out.push(0)?;
    out.push(depth)?;
    put_u32(out, size)
}

fn put_ids(out: &mut Vec<u8>, ids: &[BlockId]) -> Result<(), Memory>
    ensures text { OnOk result (out.new.items ≡ out.old.items ++ concat (ids_of ids.now)) }
    ensures types { OnOk result (All (λ id. length id ≡ 16) (ids_of ids.now)) }
{
    for id in ids {
        put_id(out, id)?;
    }
    Ok(())
}
