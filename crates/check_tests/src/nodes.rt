// The text of a node, written and read byte by byte.
ghost use Rattle.std.specs.Prelude.{◌<◌, ◌≤◌};

use std::alloc::Global;
use std::test::Fail;

/// The bytes before a node's contents.
const HEADER: usize = 8;

/// How many bytes each thing takes that a node of this depth counts.
pub fn unit(depth: u8) -> usize
    ensures least { 0 < result }
    ensures most { result ≤ 16 }
{
    if depth == 0 { 1 } else { 16 }
}

/// How many bytes or children a node of this depth has room for.
pub fn most(payload: usize, depth: u8) -> usize {
    payload.saturating_sub(HEADER) / unit(depth)
}

/// A node's payload: format, zero, depth, a count as a u32, the contents, and zeros. What there is no room for is left out.
pub fn node_text(
    alloc: Global,
    payload: usize,
    depth: u8,
    contents: &[u8],
) -> Result<Vec<u8>, Fail> {
    let count = contents.len() / unit(depth);
    let mut text = Vec::new(alloc);
    text.extend_from_slice(&[0, 0, 0, depth])?;
    text.extend_from_slice(&((count % 65_536) as u32).to_le_bytes())?;
    text.extend_from_slice(contents)?;
    text.resize(payload, 0)?;
    Ok(text)
}

/// A u32 with its lowest byte first, or 0 where there are fewer bytes.
pub fn number(bytes: &[u8]) -> u32 {
    match bytes.split_first_chunk::<4>() {
        Some((front, _)) => u32::from_le_bytes(*front),
        None => 0,
    }
}

fn are_zeros(bytes: &[u8]) -> bool {
    for byte in bytes {
        if *byte != 0 {
            return false;
        }
    }
    true
}

/// The levels below a node, 0 of a leaf, how many bytes or children it has, and those, or None where a payload has no node.
pub fn parts_of(text: &[u8]) -> Option<(u8, usize, &[u8])> {
    let (header, rest) = text.split_first_chunk::<8>()?;
    if !are_zeros(&header[..3]) {
        return None;
    }
    let depth = header[3];
    let count = number(&header[4..]) as usize;
    let size = count * unit(depth);
    if size > rest.len() || depth > 0 && count == 0 {
        return None;
    }
    let (contents, fill) = rest.split_at(size);
    if are_zeros(fill) {
        Some((depth, count, contents))
    } else {
        None
    }
}
