// Names of files in the block directory, and changes of them.

use block_id::BlockId;

/// The name of a file: the configuration first, then blocks in order of their ids.
#[derive(Clone, Copy, PartialEq, Eq, PartialOrd, Ord)]
pub enum FileName {
    Config,
    Block(BlockId),
}

/// New bytes of a file, or its removal.
#[derive(Drop)]
pub enum Change {
    Bytes(Vec<u8>),
    Removal,
}

/// An entry of an unwritten list.
#[derive(Drop)]
pub struct Pending {
    pub name: FileName,
    pub change: Change,
}
