// Blobs as trees of blocks, filled from the left.
use crate::blocks::Disk;
use crate::nodes::{most, node_text, unit};
use block_id::BlockId;
use std::alloc::Global;
use std::test::Fail;

/// More levels than any blob here has.
const MOST_LEVELS: u8 = 40;

/// New nodes of this depth, each with so many of these bytes. Their ids.
fn add_level(
    alloc: Global,
    disk: &mut Disk,
    depth: u8,
    size: usize,
    bytes: &[u8],
) -> Result<Vec<u8>, Fail> {
    let mut ids = Vec::new(alloc);
    for piece in bytes.chunks(size.max(1)) {
        let id = disk.draw();
        disk.put(id, node_text(alloc, disk.payload, depth, piece)?)?;
        ids.extend_from_slice(&id.0)?;
    }
    Ok(ids)
}

/// The blob of these bytes under an id that was drawn before.
pub fn put_blob(alloc: Global, disk: &mut Disk, id: BlockId, bytes: Vec<u8>) -> Result<(), Fail> {
    let mut contents = bytes;
    for depth in 0..MOST_LEVELS {
        let size = most(disk.payload, depth).saturating_mul(unit(depth));
        if contents.len() <= size {
            return disk.put(id, node_text(alloc, disk.payload, depth, &contents)?);
        }
        contents = add_level(alloc, disk, depth, size, &contents)?;
    }
    Err(Fail::from("too many levels"))
}
