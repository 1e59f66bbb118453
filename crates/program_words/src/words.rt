// The words that the program is called with.
ghost use Rattle.std.specs.Prelude.{◌≡◌, ◌≤◌, true, is_some, map, IfSome, IfOk, OnErr};
ghost use Rattle.std.specs.String.{string_bytes};
ghost use Rattle.script_text.specs.Grammar.{verb_of};
ghost use Rattle.program_words.specs.Forms.{count_of, single_form, plain_form, look_form, is_looking, other_form, form_of, takes_memory, IsModest};

use crate::copies::{copy_kind, read_copy};
use crate::create_options::parse_create_options;
use crate::form::Form;
use block_id::Memory;
use script_text::number;
use std::alloc::Global;

/// Commands that are generated at most.
pub const MAX_GENERATE: u64 = 1_000_000;

/// The names of script commands.
pub const COMMANDS: [&str; 16] = [
    "ls", "stat", "mkdir", "rmdir", "mkfile", "rm", "mv", "symlink", "readlink", "write", "read",
    "truncate", "chmod", "chown", "utime", "sync",
];

#[tactic(auto, unfolding(crate::specs::Forms::count_of))]
fn read_count(word: &[u8]) -> Option<u64>
    ensures value { result ≡ count_of word.now }
    ensures most { IfSome result (λ count. count ≤ 1000000) }
{
    if word.len() > 7 {
        return None;
    }
    let count = number(word)?;
    if count > MAX_GENERATE {
        return None;
    }
    Some(count)
}

/// Whether a script command has this name.
fn is_command(word: &str) -> bool
    ensures { result ≡ is_some (verb_of word.now) }
{
    COMMANDS.contains(&word)
}

/// A word that stands alone, `generate N`, `check --all` or `trial generate N`.
#[tactic(auto, unfolding(crate::specs::Forms::plain_form))]
fn read_plain_form(words: &[String]) -> Option<Form>
    ensures value { result ≡ plain_form (map string_bytes words.now) }
    ensures most { IfSome result (λ form. IsModest form) }
{
    match words {
        [first] => read_single_word(first.as_str()),
        [first, second] => {
            if first.as_str() == "generate" {
                Some(Form::Generate(read_count(second.as_bytes())?))
            } else if first.as_str() == "check" && second.as_str() == "--all" {
                Some(Form::Survey)
            } else {
                None
            }
        }
        [first, second, third] => {
            if first.as_str() == "trial" && second.as_str() == "generate" {
                Some(Form::TrialGenerate(read_count(third.as_bytes())?))
            } else {
                None
            }
        }
        _ => None,
    }
}

/// `trial`, `info`, `passwd`, `migrate`, `shell` or `check`.
#[tactic(auto, unfolding(crate::specs::Forms::single_form))]
fn read_single_word(word: &str) -> Option<Form>
    ensures value { result ≡ single_form word.now }
    ensures most { IfSome result (λ form. IsModest form) }
{
    if word == "trial" {
        Some(Form::Trial)
    } else if word == "info" {
        Some(Form::Info)
    } else if word == "passwd" {
        Some(Form::Passwd)
    } else if word == "migrate" {
        Some(Form::Migrate)
    } else if word == "shell" {
        Some(Form::Shell)
    } else if word == "check" {
        Some(Form::Check)
    } else {
        None
    }
}

#[tactic(auto, unfolding(crate::specs::Forms::form_of))]
/// What the words ask for, or None where they are of no known form. Memory comes only where the first is `create`, or
/// asks for a copy whose path follows.
pub fn read_form(alloc: Global, words: &[String]) -> Result<Option<Form>, Memory>
    ensures value { IfOk result (λ form. form ≡ form_of (map string_bytes words.now)) }
    ensures most { IfOk result (λ form. IfSome form (λ form. IsModest form)) }
    ensures memory { OnErr result (takes_memory (map string_bytes words.now) ≡ true) }
{
    let [first, others @ ..] = words else {
        return Ok(None);
    };
    if first.as_str() == "create" {
        return match parse_create_options(alloc, others)? {
            Some(options) => Ok(Some(Form::Create(options))),
            None => Ok(None),
        };
    }
    match copy_kind(first.as_str()) {
        Some(kind) => read_copy(alloc, kind, words),
        None => Ok(read_other_form(first.as_str(), words)),
    }
}

/// What the words ask for, of which the first is neither `create` nor asks for a copy.
fn read_other_form(first: &str, words: &[String]) -> Option<Form>
    ensures value { result ≡ other_form first.now (map string_bytes words.now) }
    ensures most { IfSome result (λ form. IsModest form) }
{
    if is_command(first) {
        return Some(Form::Command);
    }
    if first == "look" {
        return read_look(words);
    }
    read_plain_form(words)
}

/// A look, where a command that only looks follows.
fn read_look(words: &[String]) -> Option<Form>
    ensures value { result ≡ look_form (map string_bytes words.now) }
    ensures most { IfSome result (λ form. IsModest form) }
{
    match words {
        [_, command, ..] => {
            if is_looking(command.as_str()) {
                Some(Form::Look)
            } else {
                None
            }
        }
        _ => None,
    }
}

/// `ls`, `stat`, `readlink` or `read`.
fn is_looking(word: &str) -> bool
    ensures { result ≡ is_looking word.now }
{
    word == "ls" || word == "stat" || word == "readlink" || word == "read"
}
