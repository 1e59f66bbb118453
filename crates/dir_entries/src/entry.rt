// An entry of a directory.

use block_id::BlockId;
use fs_model::{Attr, Name};

/// A name in a directory, with the attributes and the id of the blob that it stands for.
#[derive(Drop)]
pub struct Entry {
    pub name: Name,
    pub attr: Attr,
    pub blob: BlockId,
}
