// The attributes of a row as those of a node.

use fs_model::{Attr, Kind};
use fuse_messages::{Entry, NodeAttributes, Times, VALID};

/// Bytes of the blocks in which the kernel counts.
const COUNTED_BLOCK: u64 = 512;

/// Bytes that programs are told to read and write at once.
const ADVISED_BLOCK: u32 = 4_096;

/// The bits of a kind in a mode.
pub(crate) fn kind_bits(kind: Kind) -> u32 {
    match kind {
        Kind::Directory => 0o40000,
        Kind::File => 0o100000,
        Kind::Link => 0o120000,
    }
}

/// What the kernel is told of a node with these attributes and so many bytes.
pub(crate) fn node_attributes(node: u64, attr: &Attr, size: u64) -> NodeAttributes {
    NodeAttributes {
        node,
        size,
        blocks: size.div_ceil(COUNTED_BLOCK),
        times: Times {
            atime: attr.atime.secs(),
            mtime: attr.mtime.secs(),
            ctime: attr.ctime.secs(),
            atime_nanos: attr.atime.nanos(),
            mtime_nanos: attr.mtime.nanos(),
            ctime_nanos: attr.ctime.nanos(),
        },
        mode: kind_bits(attr.kind) | attr.mode,
        links: 1,
        uid: attr.uid,
        gid: attr.gid,
        device: 0,
        block_size: ADVISED_BLOCK,
        flags: 0,
    }
}

/// The entry of such a node. The kernel may keep it long, since nobody else changes the tree.
pub(crate) fn entry_of(node: u64, attr: &Attr, size: u64) -> Entry {
    Entry {
        node,
        generation: 0,
        entry_valid: VALID,
        attributes_valid: VALID,
        entry_valid_nanos: 0,
        attributes_valid_nanos: 0,
        attributes: node_attributes(node, attr, size),
    }
}
