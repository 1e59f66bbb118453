// What stands in front of a node's contents.
ghost use Rattle.std.specs.Prelude.{◌≡◌, ◌<◌, ◌^◌, ℕ, take, IfSome, IsSomeAnd};
ghost use Rattle.data_nodes.specs.Layout.{header};

use crate::node::{HEADER_LEN, NODE_FORMAT};
use byte_fields::{u16_of, u32_of};

/// What stands in front of a node's contents: its depth, 0 for a leaf, and how many bytes or children it has.
#[derive(Clone, Copy)]
pub struct Head {
    pub depth: u8,
    pub size: u32,
}

/// The head of the node that a payload holds which begins with these bytes, or None where no payload that begins so
/// holds one. What follows the head isn't looked at.
pub fn read_head(front: &[u8]) -> Option<Head>
    // What is read stands in front.
    ensures found { IfSome result (λ head. take HEADER_LEN front.now ≡ header head.depth head.size) }
    // What stands in front is read, whatever node it is of. So None comes only where no head does.
    ensures only { (depth size : ℕ) → depth < 2 ^ 8 → size < 2 ^ 32 → take HEADER_LEN front.now ≡ header depth size
        → IsSomeAnd result (λ head. (head.depth ≡ depth) × (head.size ≡ size)) }
{
    let (header, _) = front.split_first_chunk::<HEADER_LEN>()?;
    if u16_of(&header[..2]) != NODE_FORMAT || header[2] != 0 {
        return None;
    }
    Some(Head {
        depth: header[3],
        size: u32_of(&header[4..]),
    })
}
