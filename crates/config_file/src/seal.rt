// Sealing a configuration as its file.
ghost use Rattle.std.specs.Prelude.{◌≡◌, ◌≤◌, length, IfOk};
ghost use Rattle.scrypt_kdf.specs.Cost.{IsAllowed};
ghost use Rattle.config_file.specs.ConfigOf.{IsOnly, opened};
ghost use Rattle.config_file.specs.Sealing.{inner_text, innermost_text, outer_text, sealed_file};
ghost use Rattle.config_file.specs.Settings.{IsBlockSize, settings_of};

use crate::config::Config;
use crate::format::{CIPHER_FIELD, FILE_LEN, INNER_FRONT, OUTER_FRONT};
use crate::json_writing::write_json;
use crate::keys::{Keys, derive_keys};
use aes_gcm::append_sealed;
use block_id::Memory;
use byte_fields::{put_u32, put_u64};
use scrypt_kdf::Params;
use std::alloc::Global;

/// The random bytes that seal a configuration.
#[derive(Clone, Copy)]
pub struct SealDraws {
    pub scrypt_salt: [u8; 32],
    /// What pads the sealed parts, each byte at its place.
    pub fill: [u8; 960],
    pub inner_iv: [u8; 16],
    pub outer_iv: [u8; 16],
}

/// The file of a configuration, 1,126 bytes: the inner part is sealed under a key derived from the password and the salt,
/// and so is what it holds, under another.
pub fn seal_config(
    alloc: Global,
    password: &[u8],
    params: &Params,
    draws: &SealDraws,
    config: &Config,
) -> Result<Vec<u8>, Memory>
    requires { IsBlockSize config.now.block_size }
    ensures text { IfOk result (λ text. text.items ≡ sealed_file password.now params.now draws.now (settings_of config.now)) }
    ensures opens { IfOk result (λ text. IsOnly password.now text.items (opened (settings_of config.now) params.now)) }
{
    let keys = derive_keys(alloc, password, &draws.scrypt_salt, params)?;
    let json = write_json(alloc, config)?;
    let innermost = innermost_part(alloc, &json, &draws.fill)?;
    let inner = inner_part(alloc, &keys, &draws.inner_iv, &innermost, &draws.fill)?;
    let mut out = outer_part(alloc, params, &draws.scrypt_salt)?;
    append_sealed(&keys.outer, &draws.outer_iv, &[], &inner, &mut out)?;
    Ok(out)
}

#[tactic(auto, unfolding(crate::specs::Sealing::innermost_text))]
fn innermost_part(alloc: Global, json: &[u8], fill: &[u8; 960]) -> Result<Vec<u8>, Memory>
    requires { length json.now ≤ 896 }
    ensures { IfOk result (λ part. part.items ≡ innermost_text json.now fill.now) }
{
    let mut part = Vec::with_capacity(alloc, 900)?;
    put_u32(&mut part, json.len() as u32)?;
    part.extend_from_slice(json)?;
    part.extend_from_slice(&fill[4 + json.len()..900])?;
    Ok(part)
}

#[tactic(auto, unfolding(crate::specs::Sealing::inner_text))]
fn inner_part(
    alloc: Global,
    keys: &Keys,
    iv: &[u8; 16],
    innermost: &[u8],
    fill: &[u8; 960],
) -> Result<Vec<u8>, Memory>
    ensures { IfOk result (λ part. part.items ≡ inner_text keys.now.inner iv.now innermost.now fill.now) }
{
    let mut part = Vec::with_capacity(alloc, 1024)?;
    part.extend_from_slice(&INNER_FRONT)?;
    part.extend_from_slice(&CIPHER_FIELD)?;
    append_sealed(&keys.inner, iv, &[], innermost, &mut part)?;
    part.extend_from_slice(&fill[900..959])?;
    Ok(part)
}

/// What stands before the sealed inner part.
#[tactic(auto, unfolding(crate::specs::Sealing::outer_text))]
fn outer_part(alloc: Global, params: &Params, salt: &[u8; 32]) -> Result<Vec<u8>, Memory>
    ensures text { IfOk result (λ part. part.items ≡ outer_text params.now salt.now) }
    ensures allowed { IfOk result (λ part. IsAllowed params.now) }
{
    let mut part = Vec::with_capacity(alloc, FILE_LEN)?;
    part.extend_from_slice(&OUTER_FRONT)?;
    put_u64(&mut part, params.n())?;
    put_u32(&mut part, params.r())?;
    put_u32(&mut part, params.p())?;
    part.extend_from_slice(salt)?;
    Ok(part)
}
