// Long inputs, and numbers, in the text of a story.

use std::alloc::{AllocError, Global};
use std::test::Fail;

/// What stands behind a brace: a text, how often it comes, and what follows.
fn times(part: &str) -> Option<(&str, u32, &str)> {
    let (times, rest) = part.split_once('}')?;
    let (unit, count) = times.split_once('*')?;
    Some((unit, count.parse().ok()?, rest))
}

/// Adds a text so often.
fn add_times(text: &mut String, unit: &str, count: u32) -> Result<(), AllocError> {
    for _ in 0..count {
        text.push_str(unit)?;
    }
    Ok(())
}

/// How often a text stands in a part, of which a long text is made.
const IN_A_PART: u32 = 1024;

/// Adds a text so often, in parts.
fn add_in_parts(
    alloc: Global,
    text: &mut String,
    unit: &str,
    count: u32,
) -> Result<(), AllocError> {
    let mut part = String::new(alloc);
    add_times(&mut part, unit, IN_A_PART)?;
    add_times(text, &part, count / IN_A_PART)?;
    add_times(text, unit, count % IN_A_PART)
}

/// Adds what stands behind a brace.
fn add(alloc: Global, text: &mut String, part: &str) -> Result<(), Fail> {
    let (unit, count, rest) = times(part).ok_or("a brace has a text, a star and a number")?;
    add_in_parts(alloc, text, unit, count)?;
    text.push_str(rest)?;
    Ok(())
}

/// An input in which `{41*3}` stands for 414141.
pub fn spread(alloc: Global, input: &str) -> Result<String, Fail> {
    let (start, rest) = input.split_once('{').unwrap_or((input, ""));
    let mut text = String::from_str(alloc, start)?;
    if !rest.is_empty() {
        for part in rest.split('{') {
            add(alloc, &mut text, part)?;
        }
    }
    Ok(text)
}

/// A number.
pub fn number(word: &str) -> Result<u64, Fail> {
    let number: u64 = word.parse().ok().ok_or("this is no number")?;
    Ok(number)
}

/// The numbers from the first to the last, or one.
pub fn numbers(alloc: Global, range: &str) -> Result<Vec<u64>, Fail> {
    let (first, last) = range.split_once(' ').unwrap_or((range, range));
    Ok(numbers_from(alloc, number(first)?, number(last)?)?)
}

fn numbers_from(alloc: Global, first: u64, last: u64) -> Result<Vec<u64>, AllocError> {
    let mut numbers = Vec::new(alloc);
    for number in first..=last {
        numbers.push(number)?;
    }
    Ok(numbers)
}
