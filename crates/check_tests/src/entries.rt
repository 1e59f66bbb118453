// Headers, and the entries of directories, read byte by byte.
use crate::nodes::number;
use block_id::BlockId;

/// The kinds' bytes.
pub const DIRECTORY: u8 = 0;

pub const FILE: u8 = 1;

pub const LINK: u8 = 2;

/// The kind, the parent and the body of a blob, or None where it has no header.
pub fn front_of(bytes: &[u8]) -> Option<(u8, BlockId, &[u8])> {
    let (header, body) = bytes.split_first_chunk::<19>()?;
    if header[0] != 1 || header[1] != 0 || header[2] > LINK {
        return None;
    }
    let (parent, _) = header[3..].split_first_chunk::<16>()?;
    Some((header[2], BlockId(*parent), body))
}

/// Whether these are the first bytes of an entry: the kind, three numbers and three moments.
fn are_numbers(front: &[u8; 49]) -> bool {
    let mode = number(&front[1..]);
    let nanos = number(&front[21..])
        .max(number(&front[33..]))
        .max(number(&front[45..]));
    front[0] <= LINK && mode <= 0o7777 && nanos < 1_000_000_000
}

/// Whether a directory may have an entry of this name.
fn is_name(name: &[u8]) -> bool {
    if name.is_empty() || name.len() > 255 {
        return false;
    }
    name != b".".as_slice() && name != b"..".as_slice() && !name.contains(&b'/')
}

/// What stands before the first zero, and after it.
fn text_in(bytes: &[u8]) -> Option<(&[u8], &[u8])> {
    for (i, byte) in bytes.iter().enumerate() {
        if *byte == 0 {
            return Some((&bytes[..i], &bytes[i + 1..]));
        }
    }
    None
}

/// The kind, the name and the blob of the first entry of a body, and what follows it.
pub fn entry_in(body: &[u8]) -> Option<(u8, &[u8], BlockId, &[u8])> {
    let (front, rest) = body.split_first_chunk::<49>()?;
    let (name, rest) = text_in(rest)?;
    let (blob, rest) = rest.split_first_chunk::<16>()?;
    if are_numbers(front) && is_name(name) {
        Some((front[0], name, BlockId(*blob), rest))
    } else {
        None
    }
}
