// Texts of headings, and of inputs below each: every input comes to what its heading says.

use crate::create_words::words_told;
use crate::fs_models::path_told;
use crate::script_texts::{line_told, number_told};
use std::alloc::Global;
use std::test::Fail;

/// What each input of a text is taken for.
pub enum Taken {
    /// The text of a path: how many names it has.
    Path,
    /// A line of the language: its command.
    Line,
    /// A number: the command that it makes.
    Number,
    /// The words of `create`, parted by `|`: its options.
    Words,
}

/// A text in which `{41*3}` stands for 414141, once.
pub fn spread(alloc: Global, text: &str) -> Result<String, Fail> {
    let Some((front, rest)) = text.split_once('{') else {
        return Ok(String::from_str(alloc, text)?);
    };
    let (times, back) = rest.split_once('}').ok_or("a brace is closed")?;
    let (piece, count) = times.split_once('*').ok_or("a brace has a star")?;
    let count: u32 = count.parse().ok().ok_or("a number follows the star")?;
    let mut line = String::from_str(alloc, front)?;
    for _ in 0..count {
        line.push_str(piece)?;
    }
    line.push_str(back)?;
    Ok(line)
}

/// What an input comes to, or its refusal.
fn told(alloc: Global, taken: &Taken, input: &str) -> Result<String, Fail> {
    match taken {
        Taken::Path => path_told(alloc, input),
        Taken::Line => line_told(alloc, input),
        Taken::Number => number_told(alloc, input),
        Taken::Words => words_told(alloc, input),
    }
}

/// An input comes to what was said.
fn comes_to(alloc: Global, taken: &Taken, input: &str, said: &str) -> Result<(), Fail> {
    let found = told(alloc, taken, &spread(alloc, input)?)?;
    if found.as_str() == said {
        Ok(())
    } else {
        Err(Fail::new(format_args!("{input:?} comes to {found:?} and not to {said:?}")))
    }
}

/// Each input below a heading comes to what it says.
fn all_come_to(alloc: Global, taken: &Taken, group: &str) -> Result<(), Fail> {
    let (heading, inputs) = group
        .split_once('\n')
        .ok_or("inputs stand below a heading")?;
    let said = spread(alloc, heading)?;
    for input in inputs.strip_suffix('\n').unwrap_or(inputs).split('\n') {
        comes_to(alloc, taken, input, &said)?;
    }
    Ok(())
}

/// Each input of the text comes to what its heading says. A heading begins with `# `, an input is a line, and in both
/// `{41*3}` stands for 414141:
///
///     # mkdir /aaa
///     mkdir /{a*3}
///     mkdir /{\x61*3}
pub fn tell(rt: &HostRuntime, taken: &Taken, text: &str) -> Result<(), Fail> {
    for group in text.split("# ") {
        if !group.is_empty() {
            all_come_to(rt.alloc(), taken, group)?;
        }
    }
    Ok(())
}
