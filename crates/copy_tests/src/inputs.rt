// Names, numbers and bytes in the text of a story.
use std::alloc::{AllocError, Global};
use std::test::Fail;

/// A number.
pub fn number(word: &str) -> Result<usize, Fail> {
    let number: usize = word.parse().ok().ok_or("this is no number")?;
    Ok(number)
}

/// What such a sign parts, without what is empty.
pub fn parted<'a>(alloc: Global, text: &'a str, sign: char) -> Result<Vec<&'a str>, AllocError> {
    let mut parts = Vec::new(alloc);
    for part in text.split(sign) {
        if !part.is_empty() {
            parts.push(part)?;
        }
    }
    Ok(parts)
}

/// A list of one number, or of none.
pub fn list_of(alloc: Global, text: &str) -> Result<Vec<u64>, Fail> {
    let mut list = Vec::new(alloc);
    if !text.is_empty() {
        list.push(number(text)? as u64)?;
    }
    Ok(list)
}

/// So many bytes, newlines and zeros among them.
fn mixed(alloc: Global, count: usize) -> Result<Vec<u8>, AllocError> {
    let mut bytes = Vec::new(alloc);
    for i in 0..count {
        bytes.push((i % 251) as u8)?;
    }
    Ok(bytes)
}

/// The bytes of a text, or so many as `sevens*300` and `mixed*300` say.
pub fn bytes_of(alloc: Global, text: &str) -> Result<Vec<u8>, Fail> {
    match text.split_once('*') {
        Some(("sevens", count)) => Ok(Vec::from_elem(alloc, 7, number(count)?)?),
        Some(("mixed", count)) => Ok(mixed(alloc, number(count)?)?),
        _ => Ok(text.as_bytes().to_vec(alloc)?),
    }
}

/// A text in which `{n*3}` stands for `nnn`.
pub fn spread(alloc: Global, text: &str) -> Result<String, Fail> {
    let mut long = String::new(alloc);
    for part in text.split('{') {
        let (times, rest) = part.split_once('}').unwrap_or(("*0", part));
        let (unit, count) = times.split_once('*').ok_or("a text and how often")?;
        for _ in 0..number(count)? {
            long.push_str(unit)?;
        }
        long.push_str(rest)?;
    }
    Ok(long)
}
