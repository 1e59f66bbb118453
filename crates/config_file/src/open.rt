// Opening a configuration's file.
ghost use Rattle.std.specs.Prelude.{◌≡◌, ◌≢◌, ◌↔◌, length, IfOk, IfSome, Some};
ghost use Rattle.std.specs.Option.{option_map};
ghost use Rattle.config_file.specs.ConfigOf.{ConfigOf, HoldsSettings, opened, locked, inner};
ghost use Rattle.config_file.specs.Format.{HasForm, MayWait, cost_in};
ghost use Rattle.config_file.specs.Settings.{IsBlockSize, Settings, settings_of};

use crate::config::{Config, Opened};
use crate::error::ConfigError;
use crate::format::{params_from, sealed_from, text_from};
use crate::json_reading::config_from;
use crate::keys::{derive_keys, unseal};
use block_id::Memory;
use scrypt_kdf::Params;
use std::alloc::Global;

/// The configuration that a file of any length holds under the password, with its parameters.
#[tactic(auto, using(crate::proofs::Waiting::form_waits))]
pub fn open_config(alloc: Global, password: &[u8], bytes: &[u8]) -> Result<Opened, ConfigError>
    ensures found { IfOk result (λ o. ConfigOf password.now bytes.now (opened (settings_of o.config) o.params)) }
    ensures size { IfOk result (λ o. IsBlockSize o.config.block_size) }
    ensures waits { HasForm bytes.now → MayWait bytes.now }
    ensures form { (result ≡ Err ConfigError.Form) ↔ ¬ HasForm bytes.now }
    ensures locked { result ≡ Err ConfigError.Locked → ConfigOf password.now bytes.now locked }
    ensures inner { result ≡ Err ConfigError.Inner → ConfigOf password.now bytes.now inner }
{
    let Some(params) = params_from(bytes) else {
        return Err(ConfigError::Form);
    };
    opened_by(alloc, password, bytes, &params)
}

/// The same of a file that has the outer form with these parameters.
fn opened_by(
    alloc: Global,
    password: &[u8],
    bytes: &[u8],
    params: &Params,
) -> Result<Opened, ConfigError>
    requires form { HasForm bytes.now }
    requires cost { params.now ≡ cost_in bytes.now }
    ensures found { IfOk result (λ o. ConfigOf password.now bytes.now (opened (settings_of o.config) o.params)) }
    ensures size { IfOk result (λ o. IsBlockSize o.config.block_size) }
    ensures form { result ≢ Err ConfigError.Form }
    ensures locked { result ≡ Err ConfigError.Locked → ConfigOf password.now bytes.now locked }
    ensures inner { result ≡ Err ConfigError.Inner → ConfigOf password.now bytes.now inner }
{
    let keys = derive_keys(alloc, password, &bytes[38..70], params)?;
    let Some(part) = unseal(alloc, &keys.outer, &bytes[70..])? else {
        return Err(ConfigError::Locked);
    };
    match held_config(alloc, &keys.inner, &part)? {
        Some(config) => Ok(Opened {
            config,
            params: *params,
        }),
        None => Err(ConfigError::Inner),
    }
}

/// The configuration that an inner part holds.
fn held_config(alloc: Global, key: &[u8; 32], part: &[u8]) -> Result<Option<Config>, Memory>
    requires { length part.now ≡ 1024 }
    ensures holds { IfOk result (λ answer. (s : Settings) → (option_map settings_of answer ≡ Some s) ↔ HoldsSettings key.now part.now s) }
    ensures size { IfOk result (λ answer. IfSome answer (λ config. IsBlockSize config.block_size)) }
{
    let Some(sealed) = sealed_from(part) else {
        return Ok(None);
    };
    let Some(innermost) = unseal(alloc, key, sealed)? else {
        return Ok(None);
    };
    let Some(text) = text_from(&innermost) else {
        return Ok(None);
    };
    config_from(alloc, text)
}
