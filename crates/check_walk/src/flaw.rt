// What may be wrong, and why a walk stops.
use block_id::{BlockId, Fail};

/// What no file system has.
#[derive(Clone, Copy, PartialEq, Eq)]
pub enum Flaw {
    /// The block doesn't hold the node that the tree needs there.
    BadNode(BlockId),
    /// The blob has another kind than its entry, no entries, or too long a body.
    BadBlob(BlockId),
    /// The blob's header names another directory.
    Parent(BlockId),
    /// The block is reached twice.
    Twice(BlockId),
    /// Something refers to the block, and it isn't live.
    NotLive(BlockId),
    /// The block is live, and nothing refers to it.
    Unowned(BlockId),
}

/// Why a walk stops.
#[derive(Clone, Copy)]
pub enum Halt {
    /// It found a flaw.
    Found(Flaw),
    /// A call failed.
    Failing(Fail),
}
