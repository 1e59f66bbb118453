// The words of a line.
ghost use Rattle.std.specs.Prelude.{◌≡◌, ◌∷◌, ◌<◌, [], length, map, IfOk, MatchOption};
ghost use Rattle.std.specs.List.{list_any};
ghost use Rattle.script_text.specs.Words.{words, is_empty, front, one, two, three};
ghost use Rattle.script_text.specs.Answers.{Gives};

use crate::LineError;
use crate::error::BAD_LINE;
use memchr::memchr;
use std::alloc::{AllocError, Global};

/// The bytes in front of the first space, and those after it, where there is one.
fn cut(line: &[u8]) -> (&[u8], Option<&[u8]>)
    ensures { MatchOption result.1 (words line.now ≡ result.0.now ∷ [])
        (λ rest. (words line.now ≡ result.0.now ∷ words rest.now) × (length rest.now < length line.now)) }
{
    match memchr(b' ', line) {
        Some(n) => (&line[..n], Some(&line[n + 1..])),
        None => (line, None),
    }
}

/// The pieces between single spaces.
pub fn words(alloc: Global, line: &[u8]) -> Result<Vec<&[u8]>, AllocError>
    ensures { IfOk result (λ pieces. map (λ w. w.now) pieces.items ≡ words line.now) }
{
    let mut pieces = Vec::new(alloc);
    let mut rest = line;
    'pieces: loop {
        let (word, after) = cut(rest);
        pieces.push(word)?;
        match after {
            Some(next) => rest = next,
            None => return Ok(pieces),
        }
    }
}

/// Whether a word has no byte.
pub fn has_empty_word(line: &[u8]) -> bool
    ensures { result ≡ list_any is_empty (words line.now) }
{
    let mut rest = line;
    'pieces: loop {
        let (word, after) = cut(rest);
        if word.is_empty() {
            return true;
        }
        match after {
            Some(next) => rest = next,
            None => return false,
        }
    }
}

/// The first word, and the others.
pub fn front<'a, 'b>(words: &'b [&'a [u8]]) -> Result<(&'a [u8], &'b [&'a [u8]]), LineError>
    ensures { Gives (λ all. (all.0.now, map (λ w. w.now) all.1.now)) result (front (map (λ w. w.now) words.now)) }
{
    match words {
        [first, rest @ ..] => Ok((*first, rest)),
        [] => Err(BAD_LINE),
    }
}

/// The one word.
pub fn one<'a>(words: &[&'a [u8]]) -> Result<&'a [u8], LineError>
    ensures { Gives (λ w. w.now) result (one (map (λ w. w.now) words.now)) }
{
    match words {
        [word] => Ok(*word),
        _ => Err(BAD_LINE),
    }
}

/// The two words.
pub fn two<'a>(words: &[&'a [u8]]) -> Result<(&'a [u8], &'a [u8]), LineError>
    ensures { Gives (λ both. (both.0.now, both.1.now)) result (two (map (λ w. w.now) words.now)) }
{
    match words {
        [first, second] => Ok((*first, *second)),
        _ => Err(BAD_LINE),
    }
}

/// The three words.
pub fn three<'a>(words: &[&'a [u8]]) -> Result<(&'a [u8], &'a [u8], &'a [u8]), LineError>
    ensures { Gives (λ all. (all.0.now, all.1.now, all.2.now)) result (three (map (λ w. w.now) words.now)) }
{
    match words {
        [first, second, third] => Ok((*first, *second, *third)),
        _ => Err(BAD_LINE),
    }
}
