// Damages of one block, each made by somebody who has the key.
use crate::blocks::Disk;
use crate::nodes::{node_text, parts_of, unit};
use block_id::BlockId;
use std::alloc::Global;
use std::test::Fail;

/// What becomes of a block, or of what its node holds, its bytes or children:
///
/// - `gone`: it is taken away
/// - `twin`: it is there once more, under a new id
/// - `wrapped`: its text comes under a new id, and it is a node over that alone
/// - `exchanged`: its text and that of the next block are exchanged
/// - `copied`: its text is that of the next block
/// - `deeper`: its node says another depth
/// - `cut`: the last byte or child goes
/// - `grown`: a byte or child more
/// - `lone`: only the first byte or child stays
/// - `emptied`: nothing stays
/// - `to-root`: the last sixteen bytes are the root's id
/// - `to-none`: the last sixteen bytes are the id of no block
/// - `to-self`: the last sixteen bytes are the block's own id
/// - `turned`: the first byte or child comes last
/// - `repeated`: the second byte or child is the first
/// - `zeroed`: all bytes are zeros
pub const DAMAGES: &str =
    "gone twin wrapped exchanged copied deeper cut grown lone emptied to-root to-none to-self turned repeated zeroed";

/// Puts an id in place of the last sixteen bytes.
fn set_last(bytes: &mut Vec<u8>, id: BlockId) -> Result<(), Fail> {
    bytes.truncate(bytes.len().saturating_sub(16));
    bytes.extend_from_slice(&id.0)?;
    Ok(())
}

/// The bytes with the first so many in place of the next.
fn repeated(alloc: Global, bytes: &[u8], unit: usize) -> Result<Vec<u8>, Fail> {
    let (first, rest) = bytes.split_at(unit.min(bytes.len()));
    let (_, rest) = rest.split_at(unit.min(rest.len()));
    let mut after = first.to_vec(alloc)?;
    after.extend_from_slice(first)?;
    after.extend_from_slice(rest)?;
    Ok(after)
}

/// Damages what the node of this id holds, each byte or child of which takes so many bytes.
fn damage_contents(
    alloc: Global,
    disk: &mut Disk,
    damage: &str,
    id: BlockId,
    unit: usize,
    bytes: &mut Vec<u8>,
) -> Result<(), Fail> {
    let len = bytes.len();
    match damage {
        "deeper" => {}
        "cut" => bytes.truncate(len.saturating_sub(unit)),
        "grown" => bytes.resize(len.saturating_add(unit), 7)?,
        "lone" => bytes.truncate(unit),
        "emptied" => bytes.clear(),
        "to-root" => set_last(bytes, disk.root)?,
        "to-none" => set_last(bytes, disk.draw())?,
        "to-self" => set_last(bytes, id)?,
        "turned" => bytes.rotate_left(unit.min(len)),
        "repeated" => *bytes = repeated(alloc, bytes, unit)?,
        "zeroed" => bytes.fill(0),
        _ => return Err(Fail::from("this is no damage")),
    }
    Ok(())
}

/// Sets a block's text.
fn set(disk: &mut Disk, at: usize, text: Vec<u8>) {
    if let Some(block) = disk.blocks.get_mut(at) {
        block.1 = text;
    }
}

/// Takes a block away.
fn take_out(disk: &mut Disk, at: usize) {
    if at < disk.blocks.len() {
        drop(disk.blocks.remove(at));
    }
}

/// A block's id, and its text apart.
fn block_at(alloc: Global, disk: &Disk, at: usize) -> Result<(BlockId, Vec<u8>), Fail> {
    match disk.blocks.get(at) {
        Some((id, text)) => Ok((*id, text.as_slice().to_vec(alloc)?)),
        None => Err(Fail::from("a block")),
    }
}

/// A new block with this text. Its id.
fn add(alloc: Global, disk: &mut Disk, text: &[u8]) -> Result<BlockId, Fail> {
    let id = disk.draw();
    disk.put(id, text.to_vec(alloc)?)?;
    Ok(id)
}

/// The block gets the text of the next one, and that one this text where they are exchanged.
fn move_text(
    alloc: Global,
    disk: &mut Disk,
    at: usize,
    text: &[u8],
    exchanged: bool,
) -> Result<(), Fail> {
    let behind = at.saturating_add(1);
    let next = if behind < disk.blocks.len() {
        behind
    } else {
        0
    };
    let (_, other) = block_at(alloc, disk, next)?;
    set(disk, at, other);
    if exchanged {
        set(disk, next, text.to_vec(alloc)?);
    }
    Ok(())
}

/// Damages the block of this number, whose text is a node of this depth, where it is a damage of whole blocks. Whether it is.
fn damage_whole(
    alloc: Global,
    disk: &mut Disk,
    damage: &str,
    at: usize,
    text: &[u8],
    depth: u8,
) -> Result<bool, Fail> {
    match damage {
        "gone" => take_out(disk, at),
        "twin" => drop(add(alloc, disk, text)?),
        "wrapped" => {
            let below = add(alloc, disk, text)?;
            let text = node_text(alloc, disk.payload, depth.saturating_add(1), &below.0)?;
            set(disk, at, text);
        }
        "exchanged" | "copied" => move_text(alloc, disk, at, text, damage == "exchanged")?,
        _ => return Ok(false),
    }
    Ok(true)
}

/// Damages the block of this number, whose payload holds a node.
pub fn damage_block(alloc: Global, disk: &mut Disk, damage: &str, at: usize) -> Result<(), Fail> {
    let (id, text) = block_at(alloc, disk, at)?;
    let Some((depth, _, contents)) = parts_of(&text) else {
        return Ok(());
    };
    if damage_whole(alloc, disk, damage, at, &text, depth)? {
        return Ok(());
    }
    let mut bytes = contents.to_vec(alloc)?;
    damage_contents(alloc, disk, damage, id, unit(depth), &mut bytes)?;
    let depth = if damage == "deeper" {
        depth.wrapping_add(1)
    } else {
        depth
    };
    set(disk, at, node_text(alloc, disk.payload, depth, &bytes)?);
    Ok(())
}
