// What the words of a row say, and answers as text.
ghost use Rattle.std.specs.Prelude.{◌≤◌};

use std::alloc::Global;
use std::test::Fail;

/// The words of a row. What isn't there is empty.
pub(crate) fn words_of<'a>(row: &'a str) -> [&'a str; 6] {
    let mut words = [""; 6];
    for (place, word) in row.split(' ').enumerate() {
        if let Some(held) = words.get_mut(place) {
            *held = word;
        }
    }
    words
}

/// A number, or 0 where the word says none.
pub(crate) fn number(word: &str) -> usize {
    word.parse().unwrap_or(0)
}

/// So many bytes, by their hexadecimal digits, or zeros where the word says others.
pub(crate) fn array<const N: usize>(digits: &str) -> [u8; N]
    requires { N ≤ 128 }
{
    <[u8; N] as hex::FromHex>::from_hex(digits).unwrap_or([0; N])
}

fn append(alloc: Global, bytes: &mut Vec<u8>, part: &str) -> Result<(), Fail> {
    let (digits, times) = part.split_once('*').unwrap_or((part, "1"));
    let unit = hex::decode(alloc, digits)?;
    for _ in 0..number(times) {
        bytes.extend_from_slice(&unit)?;
    }
    Ok(())
}

/// The bytes that a word says: parts between which `+` stands, each of them hexadecimal digits, and behind `*` how many times
/// they come. `-` says none.
pub(crate) fn bytes_of(alloc: Global, word: &str) -> Result<Vec<u8>, Fail> {
    let mut bytes = Vec::new(alloc);
    if word != "-" {
        for part in word.split('+') {
            append(alloc, &mut bytes, part)?;
        }
    }
    Ok(bytes)
}

/// Bytes without a short period.
pub(crate) fn some_bytes(alloc: Global, len: usize) -> Result<Vec<u8>, Fail> {
    let mut bytes = Vec::new(alloc);
    let mut state: u32 = 12345;
    for _ in 0..len {
        state = state.wrapping_mul(1_103_515_245).wrapping_add(12345);
        let [_, byte, _, _] = state.to_be_bytes();
        bytes.push(byte)?;
    }
    Ok(bytes)
}

/// An answer in words.
pub(crate) fn say(alloc: Global, text: &str) -> Result<String, Fail> {
    Ok(String::from_str(alloc, text)?)
}

/// Bytes as an answer.
pub(crate) fn hex_of(alloc: Global, bytes: &[u8]) -> Result<String, Fail> {
    Ok(hex::encode(alloc, bytes)?)
}

/// Two runs of bytes as an answer, with a bar between.
pub(crate) fn two_of(alloc: Global, first: &[u8], second: &[u8]) -> Result<String, Fail> {
    let mut answer = hex_of(alloc, first)?;
    answer.push_str("|")?;
    answer.push_str(&hex_of(alloc, second)?)?;
    Ok(answer)
}
