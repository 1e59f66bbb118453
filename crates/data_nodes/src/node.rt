// A node of a tree, and the sizes of its layout.

use block_id::BlockId;

/// A node of a tree: a leaf with bytes, or an inner node with the ids of its children in order.
#[derive(Drop)]
pub enum Node {
    Leaf(Vec<u8>),
    /// An inner node; `depth` counts the levels below it, from 1.
    Inner { depth: u8, children: Vec<BlockId> },
}

/// The format's number, with which each payload begins.
pub const NODE_FORMAT: u16 = 0;

/// The bytes before a node's contents: format, a zero byte, depth and size.
pub const HEADER_LEN: usize = 8;

/// The bytes of a child's id.
pub const ID_LEN: usize = 16;
