// What `create` is told, and the options that words say.
ghost use Rattle.std.specs.Prelude.{◌≡◌, ◌≤◌, IfOk, IfSome, map};
ghost use Rattle.std.specs.String.{string_bytes};
ghost use Rattle.block_id.specs.declared.sizes.TheConstants.{MIN_BLOCK, MAX_BLOCK};
ghost use Rattle.clap.specs.Words.{found_of, rows_of};
ghost use Rattle.program_words.specs.CreateCommand.{has_separator};
ghost use Rattle.program_words.specs.CreateOptions.{cost_at, number_at, number_within, options_at, options_of};

use crate::create_command::{BLOCK_SIZE, SCRYPT_N, SCRYPT_P, SCRYPT_R, matches_in};
use block_id::{MAX_BLOCK, MIN_BLOCK, Memory};
use clap::ArgMatches;
use script_text::number;
use scrypt_kdf::Params;
use std::alloc::Global;

/// The options of `create`.
#[derive(Clone, Copy)]
pub struct CreateOptions {
    /// How many bytes the file of a block has, 128 to 1,048,576; 16,384 where it isn't said.
    pub block_size: u32,
    /// The parameters of scrypt; N is 32,768, r 8 and p 1 where they aren't said.
    pub params: Params,
}

/// The options of `create` that the words say: `--blocksize`, `--scrypt-n`, `--scrypt-r` and `--scrypt-p`, each at most
/// once and in any order, as `--name VALUE` or `--name=VALUE`. A value is 1 to 20 decimal digits, of which the first may be
/// zeros. None exactly where the words aren't such options, or a number is out of its range.
#[tactic(auto, unfolding(crate::specs::CreateOptions::options_of))]
pub fn parse_create_options(
    alloc: Global,
    words: &[String],
) -> Result<Option<CreateOptions>, Memory>
    ensures said { IfOk result (λ options. options ≡ options_of (map string_bytes words.now)) }
    ensures limits { IfOk result (λ options. IfSome options (λ o. (MIN_BLOCK ≤ o.block_size) × (o.block_size ≤ MAX_BLOCK))) }
{
    if has_separator(words) {
        return Ok(None);
    }
    match matches_in(alloc, words)? {
        Some(matches) => Ok(options_in(&matches)),
        None => Ok(None),
    }
}

/// Whether a word is `--`, which the command would take.
fn has_separator(words: &[String]) -> bool
    ensures { result ≡ has_separator (map string_bytes words.now) }
{
    words.iter().any(|word| word.as_str() == "--")
}

#[tactic(auto, unfolding(crate::specs::CreateOptions::options_at))]
fn options_in(matches: &ArgMatches<'_>) -> Option<CreateOptions>
    ensures value { result ≡ options_at (rows_of (found_of matches.now)) }
    ensures limits { IfSome result (λ o. (MIN_BLOCK ≤ o.block_size) × (o.block_size ≤ MAX_BLOCK)) }
{
    let block_size = number_within(matches, BLOCK_SIZE, 16384, MIN_BLOCK, MAX_BLOCK)?;
    let params = params_in(matches)?;
    Some(CreateOptions { block_size, params })
}

#[tactic(auto, unfolding(crate::specs::CreateOptions::cost_at))]
fn params_in(matches: &ArgMatches<'_>) -> Option<Params>
    ensures { result ≡ cost_at (rows_of (found_of matches.now)) }
{
    let n = number_in(matches, SCRYPT_N, 32768)?;
    let r = number_within(matches, SCRYPT_R, 8, 1, 8)?;
    let p = number_within(matches, SCRYPT_P, 1, 1, 16)?;
    Params::new(n, r, p).ok()
}

/// The same number, where it is in this range.
#[tactic(auto, unfolding(crate::specs::CreateOptions::number_within))]
fn number_within(
    matches: &ArgMatches<'_>,
    name: &str,
    absent: u32,
    least: u32,
    most: u32,
) -> Option<u32>
    ensures value { result ≡ number_within name.now absent least most (rows_of (found_of matches.now)) }
    ensures bounds { IfSome result (λ n. (least ≤ n) × (n ≤ most)) }
{
    let n = number_in(matches, name, u64::from(absent))?;
    if n < u64::from(least) || n > u64::from(most) {
        return None;
    }
    Some(n as u32)
}

/// The number that an option's value is, or this one where the option isn't there.
#[tactic(auto, unfolding(crate::specs::CreateOptions::number_at), using(crate::proofs::Values::first_value_is))]
fn number_in(matches: &ArgMatches<'_>, name: &str, absent: u64) -> Option<u64>
    ensures { result ≡ number_at name.now absent (rows_of (found_of matches.now)) }
{
    match matches.get_str(name) {
        Some(value) => number(value.as_bytes()),
        None => Some(absent),
    }
}
