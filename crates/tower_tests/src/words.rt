// What the words of a story stand for.

use block_id::{BlockId, Why};
use std::test::Fail;

/// What a load answered: the first byte of the payload.
pub(crate) type Loaded = Result<Option<u8>, block_id::Fail>;

/// A number.
pub(crate) fn number(word: &str) -> Result<u64, Fail> {
    let number: u64 = word.parse().ok().ok_or("this is no number")?;
    Ok(number)
}

/// The block of this letter.
pub(crate) fn block(letter: &str) -> Result<BlockId, Fail> {
    match letter {
        "a" => Ok(BlockId([1; 16])),
        "b" => Ok(BlockId([2; 16])),
        "c" => Ok(BlockId([3; 16])),
        _ => Err(Fail::new(format_args!("no block is {letter}"))),
    }
}

/// A block and what is said of it, as in `a=5`.
pub(crate) fn pair(word: &str) -> Result<(BlockId, &str), Fail> {
    match word.split_once('=') {
        Some((letter, rest)) => Ok((block(letter)?, rest)),
        None => Err(Fail::new(format_args!("no block and what it has: {word}"))),
    }
}

/// What a load should answer: a byte, `nothing`, or what is wrong with the block, as the stories have it.
pub(crate) fn wanted(word: &str) -> Option<Loaded> {
    let why = match word {
        "nothing" => return Some(Ok(None)),
        "missing" => Why::Missing,
        "bad-length" => Why::BadLength,
        "bad-prefix" => Why::BadPrefix,
        "not-opened" => Why::NotOpened,
        "of-block-b" => Why::WrongId(BlockId([2; 16])),
        "old-format" => Why::OldFormat,
        "known-3-found-2" => Why::OldVersion { known: 3, found: 2 },
        "known-4-found-1" => Why::OldVersion { known: 4, found: 1 },
        _ => return Some(Ok(Some(word.parse().ok()?))),
    };
    Some(Err(block_id::Fail::Violation(why)))
}
