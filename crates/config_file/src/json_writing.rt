// Settings written as JSON.
ghost use Rattle.std.specs.Prelude.{◌≡◌, ◌≤◌, length, codes, string_bytes, IfOk};
ghost use Rattle.hex.specs.Hex.{encode_upper};
ghost use Rattle.serde_json.specs.Data.{number, unsigned, string, object, member, no_members};
ghost use Rattle.serde_json.specs.View.{view};
ghost use Rattle.config_file.specs.Json.{data_of, json_text};
ghost use Rattle.config_file.specs.Settings.{AreBytes, AreInLimits, IsBlockSize, settings_of};

use crate::config::Config;
use crate::json_reading::CIPHER_NAME;
use block_id::Memory;
use serde_json::{Value, json};
use std::alloc::{AllocError, Global};

/// The JSON text of a configuration.
pub(crate) fn write_json(alloc: Global, config: &Config) -> Result<Vec<u8>, Memory>
    requires { IsBlockSize config.now.block_size }
    ensures text { IfOk result (λ text. text.items ≡ json_text (settings_of config.now)) }
    ensures len { IfOk result (λ text. length text.items ≤ 896) }
    ensures limits { IfOk result (λ text. AreInLimits (settings_of config.now)) }
{
    let value = value_of(alloc, config)?;
    Ok(value.to_vec(alloc)?)
}

#[tactic(auto, unfolding(crate::specs::Json::data_of))]
fn value_of(alloc: Global, config: &Config) -> Result<Value, AllocError>
    requires { IsBlockSize config.now.block_size }
    ensures value { IfOk result (λ value. view value ≡ data_of (settings_of config.now)) }
    ensures limits { IfOk result (λ value. AreInLimits (settings_of config.now)) }
{
    let fs_id = digits_of_id(alloc, &config.fs_id.0)?;
    let key = digits_of_key(alloc, &config.key)?;
    let root = digits_of_id(alloc, &config.root.0)?;
    object_of(alloc, config.block_size, fs_id, key, root)
}

fn digits_of_id(alloc: Global, id: &[u8; 16]) -> Result<String, AllocError>
    ensures digits { IfOk result (λ digits. string_bytes digits ≡ encode_upper id.now) }
    ensures bytes { AreBytes 16 id.now }
{
    hex::encode_upper(alloc, *id)
}

fn digits_of_key(alloc: Global, key: &[u8; 32]) -> Result<String, AllocError>
    ensures digits { IfOk result (λ digits. string_bytes digits ≡ encode_upper key.now) }
    ensures bytes { AreBytes 32 key.now }
{
    hex::encode_upper(alloc, *key)
}

fn object_of(
    alloc: Global,
    block_size: u32,
    fs_id: String,
    key: String,
    root: String,
) -> Result<Value, AllocError>
    ensures { IfOk result (λ value. view value ≡ object (member (codes "blocksizeBytes") (number (unsigned block_size))
        (member (codes "cipher") (string (codes "aes-256-gcm"))
        (member (codes "filesystemId") (string (string_bytes fs_id))
        (member (codes "key") (string (string_bytes key))
        (member (codes "rootblob") (string (string_bytes root)) no_members)))))) }
{
    json!(in alloc; {"blocksizeBytes": block_size, "cipher": CIPHER_NAME, "filesystemId": fs_id, "key": key, "rootblob": root})
}
