// The record and the files of client 7 that rows tell, byte by byte as the formats have them.
use crate::client_steps::{Client, block};
use crate::integrity_files::file_of;
use block_id::BlockId;
use memory_outside::MemoryVault;
use outside::{FileName, Vault};
use rand_core::Rng;
use rand_pcg::Pcg32;
use std::alloc::Global;
use std::test::Fail;

/// What was drawn last of a source from which so many IVs were drawn.
pub(crate) fn draw(number: u64) -> [u8; 16] {
    let mut source = Pcg32::new(1, 2);
    let mut drawn = [0; 16];
    for _ in 0..number {
        source.fill_bytes(&mut drawn);
    }
    drawn
}

/// A number of a row.
pub(crate) fn number(text: &str) -> Result<u64, Fail> {
    Ok(text.parse().ok().ok_or("this is no number")?)
}

/// A block, whether it lives, whether its id is used, and its version: `1 live at 2`, `4 removed at 3` or `it unknown`.
pub(crate) type Known = (BlockId, bool, bool, Option<u64>);

pub(crate) fn known_in(client: &Client, row: &str) -> Result<Known, Fail> {
    let (name, rest) = row.split_once(' ').ok_or("a block and its life")?;
    let (life, version) = rest.split_once(" at ").unwrap_or((rest, ""));
    Ok((
        block(client, name)?,
        life == "live",
        life != "unknown",
        version.parse().ok(),
    ))
}

/// An id with its version, and whether its block lives.
fn push_life(out: &mut Vec<u8>, known: &Known) -> Result<(), Fail> {
    let (id, live, _, version) = known;
    let version = version.ok_or("no version")?;
    out.extend_from_slice(&id.0)?;
    out.extend_from_slice(&version.to_le_bytes())?;
    out.push(if *live { 1 } else { 0 })?;
    Ok(())
}

/// The record that knows these blocks, or `nothing`: its first bytes, what it belongs to, the client, no life, the blocks.
pub(crate) fn record_of(alloc: Global, client: &Client, rows: &str) -> Result<Vec<u8>, Fail> {
    let mut count: u64 = 0;
    let mut lives = Vec::new(alloc);
    for row in rows.split(", ") {
        if row != "nothing" {
            push_life(&mut lives, &known_in(client, row)?)?;
            count = count.saturating_add(1);
        }
    }
    let mut out = b"cryfs.localstate;1\0\0".to_vec(alloc)?;
    out.extend_from_slice(&[0x11; 80])?;
    out.extend_from_slice(&[7, 0, 0, 0])?;
    out.extend_from_slice(&count.to_le_bytes())?;
    out.append(&mut lives)?;
    out.extend_from_slice(&[0; 8])?;
    Ok(out)
}

/// The file of a block, with a version and a payload of 50 times a byte, as in `1 at 2 of 8`. It is sealed with an IV of nines,
/// or, as in `1 at 2 of 8 with draw 1`, with what is drawn.
pub(crate) fn file_in(
    alloc: Global,
    client: &Client,
    row: &str,
) -> Result<(BlockId, Vec<u8>), Fail> {
    let (row, iv) = match row.split_once(" with draw ") {
        Some((row, count)) => (row, draw(number(count)?)),
        None => (row, [9; 16]),
    };
    let (name, rest) = row.split_once(" at ").ok_or("a block at a version")?;
    let (version, byte) = rest.split_once(" of ").ok_or("a version of a byte")?;
    let id = block(client, name)?;
    let byte = byte.parse().ok().ok_or("this is no byte")?;
    let file = file_of(alloc, &id, &iv, &plain_of(&id, number(version)?, byte))?;
    Ok((id, file))
}

/// What a block's file holds: the format's number, its id, its client, its version and 50 bytes of payload.
fn plain_of(id: &BlockId, version: u64, payload: u8) -> [u8; 80] {
    let mut plain = [payload; 80];
    plain[..30].fill(0);
    plain[0] = 1;
    plain[2..18].copy_from_slice(&id.0);
    plain[18] = 7;
    plain[22..30].copy_from_slice(&version.to_le_bytes());
    plain
}

/// Puts such a file. One that ends wrong has a bit of its last byte turned.
fn put_file(
    alloc: Global,
    below: &mut MemoryVault,
    client: &Client,
    row: &str,
) -> Result<(), Fail> {
    let (row, bits) = match row.strip_suffix(" ending wrong") {
        Some(row) => (row, 1),
        None => (row, 0),
    };
    let (id, mut file) = file_in(alloc, client, row)?;
    if let Some(last) = file.last_mut() {
        *last ^= bits;
    }
    below.put(alloc, &FileName::Block(id), &file)?;
    Ok(())
}

/// A directory with these files, or with `nothing`.
pub(crate) fn directory_of(
    alloc: Global,
    client: &Client,
    rows: &str,
) -> Result<MemoryVault, Fail> {
    let mut below = MemoryVault::new(alloc);
    for row in rows.split(", ") {
        if row != "nothing" {
            put_file(alloc, &mut below, client, row)?;
        }
    }
    Ok(below)
}
