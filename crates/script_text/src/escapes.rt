// Words with escapes, and words in hexadecimal.
ghost use Rattle.std.specs.Prelude.{◌≡◌, ◌<◌, length, MatchOption, Some, None};
ghost use Rattle.script_text.specs.Escapes.{byte_of, with_byte, unescaped, bytes_of};
ghost use Rattle.script_text.specs.Grammar.{formed};
ghost use Rattle.script_text.specs.Answers.{Gives};

use crate::LineError;
use crate::error::BAD_LINE;
use crate::hex_digits::read_digits;
use std::alloc::Global;

/// The bytes that a word with escapes stands for.
pub fn unescaped(alloc: Global, word: &[u8]) -> Result<Vec<u8>, LineError>
    ensures { Gives (λ bytes. bytes.items) result (formed (unescaped word.now)) }
{
    let mut bytes = Vec::new(alloc);
    let mut rest = word;
    while !rest.is_empty() {
        let Some((byte, after)) = first_byte(rest) else {
            return Err(BAD_LINE);
        };
        bytes.push(byte)?;
        rest = after;
    }
    Ok(bytes)
}

/// The byte that the front of a word stands for, and what follows.
fn first_byte(word: &[u8]) -> Option<(u8, &[u8])>
    requires { 0 < length word.now }
    ensures { MatchOption result (unescaped word.now ≡ None)
        (λ found. (unescaped word.now ≡ with_byte (Some found.0) (unescaped found.1.now)) × (length found.1.now < length word.now)) }
{
    if word[0] != b'\\' {
        return Some((word[0], &word[1..]));
    }
    if word.len() < 4 || word[1] != b'x' {
        return None;
    }
    let byte = byte_of(word[2], word[3])?;
    Some((byte, &word[4..]))
}

/// The byte of two hexadecimal digits of either case.
fn byte_of(high: u8, low: u8) -> Option<u8>
    ensures { result ≡ byte_of high low }
{
    let high = (high as char).to_digit(16)?;
    let low = (low as char).to_digit(16)?;
    Some((16 * high + low) as u8)
}

#[tactic(auto, unfolding(crate::specs::Escapes::bytes_of))]
/// `-` for no bytes, or two hexadecimal digits of either case for each.
pub fn bytes(alloc: Global, word: &[u8]) -> Result<Vec<u8>, LineError>
    ensures { Gives (λ bytes. bytes.items) result (formed (bytes_of word.now)) }
{
    if word == b"-".as_slice() {
        return Ok(Vec::new(alloc));
    }
    if word.len() % 2 != 0 {
        return Err(BAD_LINE);
    }
    let mut bytes = vec![in alloc; 0u8; word.len() / 2]?;
    if !read_digits(word, bytes.as_mut_slice()) {
        return Err(BAD_LINE);
    }
    Ok(bytes)
}
