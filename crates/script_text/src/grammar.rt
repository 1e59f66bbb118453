// The command that a line says.
ghost use Rattle.std.specs.Prelude.{◌≡◌, map, IfOk, IfErr};
ghost use Rattle.fs_model.specs.Fitting.{IsFitting};
ghost use Rattle.script_text.specs.Grammar as grammar;
ghost use Rattle.script_text.specs.Grammar.{command_of, sentence, command_in, only_path};
ghost use Rattle.script_text.specs.Parts.{two_texts, text_before, path_before, both};
ghost use Rattle.script_text.specs.Answers.{Gives, IsRefusal};

use crate::error::BAD_LINE;
use crate::escapes::{bytes, unescaped};
use crate::numbers::{id, mode, number, time};
use crate::paths::parse_path;
use crate::verb::{Verb, verb_of};
use crate::words::{front, has_empty_word, one, three, two, words};
use crate::{LineError, PathError};
use fs_model::{ByteText, Command, FsError, MAX_TARGET, Path, has_zero};
use std::alloc::Global;

/// Bytes of a line, without its newline.
pub const MAX_LINE: usize = 1_048_576;

/// The command of a line without its newline. `BadLine` comes first, for whatever word; then paths and
/// targets are refused from left to right.
pub fn parse_line(alloc: Global, line: &[u8]) -> Result<Command, LineError>
    ensures command { IfOk result (λ command. command_of line.now ≡ Ok command) }
    ensures refused { IfErr result (IsRefusal (command_of line.now)) }
    ensures fits { IfOk result IsFitting }
{
    parse(alloc, line)
}

#[tactic(auto, unfolding(crate::specs::Grammar::command_of))]
fn parse(alloc: Global, line: &[u8]) -> Result<Command, LineError>
    ensures { Gives (λ command. command) result (command_of line.now) }
{
    if line.len() > MAX_LINE {
        return Err(BAD_LINE);
    }
    if has_empty_word(line) {
        return Err(BAD_LINE);
    }
    let words = words(alloc, line)?;
    command_in(alloc, words.as_slice())
}

/// The command of words.
#[tactic(auto, unfolding(crate::specs::Grammar::command_in))]
fn command_in(alloc: Global, words: &[&[u8]]) -> Result<Command, LineError>
    ensures { Gives (λ command. command) result (command_in (map (λ w. w.now) words.now)) }
{
    let (name, words) = front(words)?;
    match verb_of(name) {
        Some(verb) => sentence(alloc, verb, words),
        None => Err(BAD_LINE),
    }
}

/// The command of a verb and the words after it.
#[tactic(auto, unfolding(crate::specs::Grammar::sentence))]
fn sentence(alloc: Global, verb: Verb, words: &[&[u8]]) -> Result<Command, LineError>
    ensures { Gives (λ command. command) result (sentence verb (map (λ w. w.now) words.now)) }
{
    match verb {
        Verb::List => only_path(alloc, words).map(Command::List),
        Verb::Stat => only_path(alloc, words).map(Command::Stat),
        Verb::Mkdir => only_path(alloc, words).map(Command::Mkdir),
        Verb::Rmdir => only_path(alloc, words).map(Command::Rmdir),
        Verb::Mkfile => only_path(alloc, words).map(Command::Mkfile),
        Verb::Rm => only_path(alloc, words).map(Command::Rm),
        Verb::Mv => mv(alloc, words),
        Verb::Symlink => symlink(alloc, words),
        Verb::Readlink => only_path(alloc, words).map(Command::Readlink),
        Verb::Write => write(alloc, words),
        Verb::Read => read(alloc, words),
        Verb::Truncate => truncate(alloc, words),
        Verb::Chmod => chmod(alloc, words),
        Verb::Chown => chown(alloc, words),
        Verb::Utime => utime(alloc, words),
        Verb::Sync => sync(words),
    }
}

/// PATH
#[tactic(auto, unfolding(crate::specs::Grammar::only_path))]
fn only_path(alloc: Global, words: &[&[u8]]) -> Result<Path, LineError>
    ensures { Gives (λ path. path) result (only_path (map (λ w. w.now) words.now)) }
{
    let text = unescaped(alloc, one(words)?)?;
    path(alloc, text)
}

/// PATH PATH
fn mv(alloc: Global, words: &[&[u8]]) -> Result<Command, LineError>
    ensures { Gives (λ command. command) result (grammar.mv (map (λ w. w.now) words.now)) }
{
    let (from, to) = two_texts(alloc, words)?;
    let from = path(alloc, from)?;
    Ok(Command::Mv(from, path(alloc, to)?))
}

/// TARGET PATH
fn symlink(alloc: Global, words: &[&[u8]]) -> Result<Command, LineError>
    ensures { Gives (λ command. command) result (grammar.symlink (map (λ w. w.now) words.now)) }
{
    let (to, at) = two_texts(alloc, words)?;
    let to = target(to)?;
    Ok(Command::Symlink(to, path(alloc, at)?))
}

/// PATH NUMBER HEX
fn write(alloc: Global, words: &[&[u8]]) -> Result<Command, LineError>
    ensures { Gives (λ command. command) result (grammar.write (map (λ w. w.now) words.now)) }
{
    let (at, from, hex) = three(words)?;
    let (at, from) = text_before(alloc, at, number(from))?;
    let bytes = bytes(alloc, hex)?;
    Ok(Command::Write(path(alloc, at)?, from, ByteText::new(bytes)))
}

/// PATH NUMBER NUMBER
fn read(alloc: Global, words: &[&[u8]]) -> Result<Command, LineError>
    ensures { Gives (λ command. command) result (grammar.read (map (λ w. w.now) words.now)) }
{
    let (at, from, count) = three(words)?;
    let (at, (from, count)) = path_before(alloc, at, both(number(from), number(count)))?;
    Ok(Command::Read(at, from, count))
}

/// PATH NUMBER
fn truncate(alloc: Global, words: &[&[u8]]) -> Result<Command, LineError>
    ensures { Gives (λ command. command) result (grammar.truncate (map (λ w. w.now) words.now)) }
{
    let (at, length) = two(words)?;
    let (at, length) = path_before(alloc, at, number(length))?;
    Ok(Command::Truncate(at, length))
}

/// PATH MODE
fn chmod(alloc: Global, words: &[&[u8]]) -> Result<Command, LineError>
    ensures { Gives (λ command. command) result (grammar.chmod (map (λ w. w.now) words.now)) }
{
    let (at, bits) = two(words)?;
    let (at, bits) = path_before(alloc, at, mode(bits))?;
    Ok(Command::Chmod(at, bits))
}

/// PATH ID ID
fn chown(alloc: Global, words: &[&[u8]]) -> Result<Command, LineError>
    ensures { Gives (λ command. command) result (grammar.chown (map (λ w. w.now) words.now)) }
{
    let (at, uid, gid) = three(words)?;
    let (at, (uid, gid)) = path_before(alloc, at, both(id(uid), id(gid)))?;
    Ok(Command::Chown(at, uid, gid))
}

/// PATH TIME TIME
fn utime(alloc: Global, words: &[&[u8]]) -> Result<Command, LineError>
    ensures { Gives (λ command. command) result (grammar.utime (map (λ w. w.now) words.now)) }
{
    let (at, atime, mtime) = three(words)?;
    let (at, (atime, mtime)) = path_before(alloc, at, both(time(atime), time(mtime)))?;
    Ok(Command::Utime(at, atime, mtime))
}

/// Nothing.
#[tactic(auto, unfolding(crate::specs::Grammar::sync))]
fn sync(words: &[&[u8]]) -> Result<Command, LineError>
    ensures { Gives (λ command. command) result (grammar.sync (map (λ w. w.now) words.now)) }
{
    if words.is_empty() {
        Ok(Command::Sync)
    } else {
        Err(BAD_LINE)
    }
}

/// The texts of two words.
fn two_texts(alloc: Global, words: &[&[u8]]) -> Result<(Vec<u8>, Vec<u8>), LineError>
    ensures { Gives (λ texts. (texts.0.items, texts.1.items)) result (two_texts (map (λ w. w.now) words.now)) }
{
    let (first, second) = two(words)?;
    let first = unescaped(alloc, first)?;
    Ok((first, unescaped(alloc, second)?))
}

/// The text of a word, and what the words behind it say.
fn text_before<T: Copy>(
    alloc: Global,
    word: &[u8],
    others: Option<T>,
) -> Result<(Vec<u8>, T), LineError>
    ensures { Gives (λ both. (both.0.items, both.1)) result (text_before word.now others) }
{
    let text = unescaped(alloc, word)?;
    match others {
        Some(others) => Ok((text, others)),
        None => Err(BAD_LINE),
    }
}

/// The path of a word, and what the words behind it say, whose forms come first.
fn path_before<T: Copy>(
    alloc: Global,
    word: &[u8],
    others: Option<T>,
) -> Result<(Path, T), LineError>
    ensures { Gives (λ both. both) result (path_before word.now others) }
{
    let (text, others) = text_before(alloc, word, others)?;
    Ok((path(alloc, text)?, others))
}

/// What two words say.
fn both<A: Copy, B: Copy>(first: Option<A>, second: Option<B>) -> Option<(A, B)>
    ensures { result ≡ both first second }
{
    match (first, second) {
        (Some(first), Some(second)) => Some((first, second)),
        _ => None,
    }
}

/// The path that a text says, or the error of the language that refuses it. No escape is read here.
fn path(alloc: Global, text: Vec<u8>) -> Result<Path, LineError>
    ensures { Gives (λ path. path) result (grammar.path text.items) }
{
    parse_path(alloc, &text).map_err(|e| match e {
        PathError::Form | PathError::Dot => LineError::Bad(FsError::Invalid),
        PathError::LongName | PathError::LongPath => LineError::Bad(FsError::NameTooLong),
        PathError::Memory => LineError::Memory,
    })
}

/// Such a text as a link's target.
fn target(text: Vec<u8>) -> Result<ByteText, LineError>
    ensures { Gives (λ target. target) result (grammar.target text.items) }
{
    if has_zero(text.as_slice()) {
        return Err(LineError::Bad(FsError::Invalid));
    }
    if text.len() > MAX_TARGET {
        return Err(LineError::Bad(FsError::NameTooLong));
    }
    Ok(ByteText::new(text))
}
