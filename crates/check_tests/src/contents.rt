// The contents of blobs and nodes, as a story says them.
use crate::blocks::Disk;
use std::alloc::Global;
use std::test::Fail;

/// The bytes of a header, which stand before the body of a blob.
const HEADER: usize = 19;

/// A number.
pub fn number(word: &str) -> Result<usize, Fail> {
    let number: usize = word.parse().ok().ok_or("this is no number")?;
    Ok(number)
}

/// The byte of a kind. The last is none of them.
fn kind_of(word: &str) -> Result<u8, Fail> {
    match word {
        "directory" => Ok(0),
        "file" => Ok(1),
        "link" => Ok(2),
        "other" => Ok(3),
        _ => Err(Fail::from("this is no kind")),
    }
}

/// Appends a text, in which `{7*3}` stands for three bytes 7.
fn put_text(bytes: &mut Vec<u8>, text: &str) -> Result<(), Fail> {
    for part in text.split('{') {
        let (run, rest) = part.split_once('}').unwrap_or(("0*0", part));
        let (byte, count) = run.split_once('*').ok_or("a byte and how many")?;
        let len = bytes.len().saturating_add(number(count)?);
        bytes.resize(len, (number(byte)? % 256) as u8)?;
        bytes.extend_from_slice(rest.as_bytes())?;
    }
    Ok(())
}

/// Appends the ids of these blocks.
fn put_ids(disk: &mut Disk, bytes: &mut Vec<u8>, names: &str) -> Result<(), Fail> {
    for name in names.split(' ') {
        let id = disk.named(name)?;
        bytes.extend_from_slice(&id.0)?;
    }
    Ok(())
}

/// Appends an entry of this kind for a name and a block. Its mode is 644, its user and group are 0, and its moments are zero.
fn put_entry(disk: &mut Disk, bytes: &mut Vec<u8>, kind: u8, rest: &str) -> Result<(), Fail> {
    let (name, blob) = rest
        .split_once(' ')
        .ok_or("an entry has a name and a blob")?;
    bytes.extend_from_slice(&[kind, 0xa4, 1])?;
    put_text(bytes, "{0*46}")?;
    put_text(bytes, name)?;
    bytes.push(0)?;
    put_ids(disk, bytes, blob)
}

/// Appends so many bytes, none of them zero.
fn put_filling(bytes: &mut Vec<u8>, count: usize) -> Result<(), Fail> {
    for i in 0..count {
        bytes.push((i % 251) as u8 + 1)?;
    }
    Ok(())
}

/// Changes the byte at this place of the body.
fn set_byte(bytes: &mut Vec<u8>, place: usize, value: usize) {
    if let Some(byte) = bytes.get_mut(place.saturating_add(HEADER)) {
        *byte = (value % 256) as u8;
    }
}

/// Appends a piece to a blob or a node, or changes its body: `set 2 15` sets the byte at 2, and `whole 48` cuts it, or
/// fills it with zeros.
fn put_piece(disk: &mut Disk, bytes: &mut Vec<u8>, piece: &str) -> Result<(), Fail> {
    let (word, rest) = piece.split_once(' ').ok_or("a piece has two words")?;
    let (first, last) = rest.split_once(' ').unwrap_or((rest, ""));
    match word {
        "header" => {
            bytes.extend_from_slice(&[1, 0, kind_of(first)?])?;
            put_ids(disk, bytes, last)?;
        }
        "entry" => put_entry(disk, bytes, kind_of(first)?, last)?,
        "ids" => put_ids(disk, bytes, rest)?,
        "filling" => put_filling(bytes, number(rest)?)?,
        "text" => put_text(bytes, rest)?,
        "set" => set_byte(bytes, number(first)?, number(last)?),
        "whole" => bytes.resize(number(rest)?.saturating_add(HEADER), 0)?,
        _ => return Err(Fail::from("this is no piece")),
    }
    Ok(())
}

/// The bytes of these pieces.
pub fn contents(alloc: Global, disk: &mut Disk, pieces: &str) -> Result<Vec<u8>, Fail> {
    let mut bytes = Vec::new(alloc);
    for piece in pieces.split(", ") {
        put_piece(disk, &mut bytes, piece)?;
    }
    Ok(bytes)
}
