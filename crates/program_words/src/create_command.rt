// The options of `create` as a command of `clap`.
ghost use Rattle.std.specs.Prelude.{◌≡◌, ◌≢◌, [], IfOk, IfSome, false, map};
ghost use Rattle.std.specs.Option.{IsNone};
ghost use Rattle.std.specs.String.{string_bytes};
ghost use Rattle.clap.specs.Words.{app_of, fault_of, found_of, rows_of, rule_of, with_rule};
ghost use Rattle.program_words.specs.CreateCommand.{bare_app, create_app, option_rule, values_in};

use block_id::Memory;
use clap::error::ErrorKind;
use clap::{Arg, ArgMatches, Command};
use std::alloc::{AllocError, Global};

pub(crate) const BLOCK_SIZE: &str = "blocksize";

pub(crate) const SCRYPT_N: &str = "scrypt-n";

pub(crate) const SCRYPT_R: &str = "scrypt-r";

pub(crate) const SCRYPT_P: &str = "scrypt-p";

/// What the words give the options, or None where the command doesn't take them.
pub(crate) fn matches_in<'a>(
    alloc: Global,
    words: &'a [String],
) -> Result<Option<ArgMatches<'a>>, Memory>
    ensures some { IfOk result (λ answer. IfSome answer (λ matches. (fault_of create_app (map string_bytes words.entry.now) ≡ [])
        × (rows_of (found_of matches) ≡ values_in (map string_bytes words.entry.now)))) }
    ensures none { IfOk result (λ answer. IsNone answer → fault_of create_app (map string_bytes words.entry.now) ≢ []) }
{
    let command = create_command(alloc)?;
    match command.try_get_matches_from(words) {
        Ok(matches) => Ok(Some(matches)),
        Err(error) => {
            if error.kind() == ErrorKind::OutOfMemory {
                return Err(Memory);
            }
            Ok(None)
        }
    }
}

fn create_command<'a>(alloc: Global) -> Result<Command<'a>, AllocError>
    ensures { IfOk result (λ command. app_of command ≡ create_app) }
{
    let command = with_option(alloc, bare_command(alloc), BLOCK_SIZE)?;
    let command = with_option(alloc, command, SCRYPT_N)?;
    let command = with_option(alloc, command, SCRYPT_R)?;
    with_option(alloc, command, SCRYPT_P)
}

/// One option more.
fn with_option<'a>(
    alloc: Global,
    command: Command<'a>,
    name: &'a str,
) -> Result<Command<'a>, AllocError>
    ensures { IfOk result (λ more. app_of more ≡ with_rule (app_of command.entry) (option_rule name.entry.now)) }
{
    command.arg(option(alloc, name))
}

/// No argument; the first word isn't the program's name, and `--help` and `-h` aren't known.
fn bare_command<'a>(alloc: Global) -> Command<'a>
    ensures { app_of result ≡ bare_app }
{
    Command::new(alloc, "create")
        .no_binary_name(true)
        .disable_help_flag(true)
}

/// An option with one value, as `--name VALUE` or `--name=VALUE`.
fn option<'a>(alloc: Global, name: &'a str) -> Arg<'a>
    ensures rule { rule_of result ≡ option_rule name.entry.now }
    ensures local { result.global ≡ false }
{
    Arg::new(alloc, name).long(name)
}
