// The bodies of single replies.

use crate::attributes::put_attributes;
use crate::structures::NodeAttributes;
use block_id::Memory;
use byte_fields::{put_u16, put_u32, put_u64};

/// The major number of the protocol that is spoken.
pub const MAJOR: u32 = 7;

/// Its minor number.
const MINOR: u32 = 31;

/// Bytes of one write, and of one read.
pub const MAX_WRITE: u32 = 1_048_576;

/// Pages of 4,096 bytes in them.
const MAX_PAGES: u16 = 256;

/// Requests that the kernel sends before a reply came without a caller that waits for each, and how many of these are a crowd.
const BACKGROUND: (u16, u16) = (12, 9);

/// Seconds for which the kernel may keep names and attributes.
pub const VALID: u64 = 86_400;

/// Appends what the file system can (`fuse_init_out`): how far the kernel reads ahead, and the flags.
pub fn put_init(out: &mut Vec<u8>, ahead: u32, flags: u32) -> Result<(), Memory> {
    put_u32(out, MAJOR)?;
    put_u32(out, MINOR)?;
    put_u32(out, ahead)?;
    put_u32(out, flags)?;
    put_u16(out, BACKGROUND.0)?;
    put_u16(out, BACKGROUND.1)?;
    put_u32(out, MAX_WRITE)?;
    // (moments are exact to the nanosecond)
    put_u32(out, 1)?;
    put_u16(out, MAX_PAGES)?;
    put_u16(out, 0)?;
    for _ in 0..4u8 {
        put_u64(out, 0)?;
    }
    Ok(())
}

/// Appends attributes with how long they may be kept (`fuse_attr_out`).
pub fn put_kept_attributes(out: &mut Vec<u8>, it: &NodeAttributes) -> Result<(), Memory> {
    put_u64(out, VALID)?;
    put_u64(out, 0)?;
    put_attributes(out, it)
}

/// Appends what an opening gives (`fuse_open_out`).
pub fn put_opened(out: &mut Vec<u8>, handle: u64, flags: u32) -> Result<(), Memory> {
    put_u64(out, handle)?;
    put_u32(out, flags)?;
    put_u32(out, 0)
}

/// Appends how many bytes were written (`fuse_write_out`).
pub fn put_written(out: &mut Vec<u8>, count: u32) -> Result<(), Memory> {
    put_u32(out, count)?;
    put_u32(out, 0)
}

/// Appends sizes of the whole (`fuse_statfs_out`): constants, half of them free, since nobody knows how many blocks there may be.
pub fn put_statistics(out: &mut Vec<u8>) -> Result<(), Memory> {
    for number in [1u64 << 30, 1 << 29, 1 << 29, 1 << 30, 1 << 29] {
        put_u64(out, number)?;
    }
    for number in [4096u32, 255, 4096, 0, 0, 0, 0, 0, 0, 0] {
        put_u32(out, number)?;
    }
    Ok(())
}

/// Bytes of an entry.
pub const ENTRY_LEN: usize = 128;

/// Appends an entry of no node.
pub fn put_no_entry(out: &mut Vec<u8>) -> Result<(), Memory> {
    let zeros = [0u8; ENTRY_LEN];
    out.extend_from_slice(&zeros)?;
    Ok(())
}
