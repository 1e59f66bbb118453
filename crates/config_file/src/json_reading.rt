// Settings read from JSON.
ghost use Rattle.std.specs.Prelude.{◌≡◌, ◌↔◌, IfOk, IfSome, IsNone, None, Some, IsUtf8, codes, option_and_then};
ghost use Rattle.serde_json.specs.Find.{get, as_number, as_u64};
ghost use Rattle.std.specs.Option.{option_map};
ghost use Rattle.serde_json.specs.Read.{read};
ghost use Rattle.serde_json.specs.View.{view};
ghost use Rattle.config_file.specs.Json.{ReadsAs, block_size_at, bytes_at, cipher_at, settings_in, text_at};
ghost use Rattle.config_file.specs.Settings.{IsBlockSize, Settings, settings_of};

use crate::config::{Cipher, Config};
use block_id::{BlockId, MAX_BLOCK, MIN_BLOCK, Memory};
use hex::FromHex;
use serde_json::{Category, Value};
use std::alloc::Global;

pub(crate) const CIPHER_NAME: &str = "aes-256-gcm";

/// The configuration that a JSON text says, or None where it says none.
pub(crate) fn config_from(alloc: Global, text: &[u8]) -> Result<Option<Config>, Memory>
    ensures reads { IfOk result (λ answer. (s : Settings) → (option_map settings_of answer ≡ Some s) ↔ ReadsAs text.now s) }
    ensures size { IfOk result (λ answer. IfSome answer (λ config. IsBlockSize config.block_size)) }
{
    let Some(value) = value_from(alloc, text)? else {
        return Ok(None);
    };
    Ok(config_in(&value))
}

fn value_from(alloc: Global, text: &[u8]) -> Result<Option<Value>, Memory>
    ensures some { IfOk result (λ answer. IfSome answer (λ value. IsUtf8 text.now × (read text.now ≡ Some (view value)))) }
    ensures none { IfOk result (λ answer. IsNone answer → IsUtf8 text.now → read text.now ≡ None) }
{
    match Value::from_slice(alloc, text) {
        Ok(value) => Ok(Some(value)),
        Err(error) => {
            if error.classify() == Category::Memory {
                return Err(Memory);
            }
            Ok(None)
        }
    }
}

#[tactic(auto, unfolding(crate::specs::Json::settings_in))]
fn config_in(value: &Value) -> Option<Config>
    ensures reads { option_map settings_of result ≡ settings_in (view value.now) }
    ensures size { IfSome result (λ config. IsBlockSize config.block_size) }
{
    let block_size = block_size_in(value)?;
    let cipher = cipher_in(value)?;
    let fs_id = id_in(value, "filesystemId")?;
    let key = key_in(value, "key")?;
    let root = id_in(value, "rootblob")?;
    Some(Config {
        root,
        key,
        cipher,
        block_size,
        fs_id,
    })
}

#[tactic(auto, unfolding(crate::specs::Json::block_size_at))]
fn block_size_in(value: &Value) -> Option<u32>
    ensures reads { result ≡ block_size_at (view value.now) }
    ensures size { IfSome result (λ size. IsBlockSize size) }
{
    let size = number_in(value)?;
    if size < MIN_BLOCK as u64 || size > MAX_BLOCK as u64 {
        return None;
    }
    Some(size as u32)
}

fn number_in(value: &Value) -> Option<u64>
    ensures { result ≡ option_and_then (λ n. option_and_then as_u64 (as_number n)) (get (codes "blocksizeBytes") (view value.now)) }
{
    let size = value.get("blocksizeBytes")?;
    size.as_u64()
}

#[tactic(auto, unfolding(crate::specs::Json::cipher_at))]
fn cipher_in(value: &Value) -> Option<Cipher>
    ensures { result ≡ cipher_at (view value.now) }
{
    let name = text_in(value, "cipher")?;
    if name != CIPHER_NAME {
        return None;
    }
    Some(Cipher::Aes256Gcm)
}

#[tactic(auto, unfolding(crate::specs::Json::bytes_at))]
fn id_in(value: &Value, name: &str) -> Option<BlockId>
    ensures { option_map (λ id. id.0) result ≡ bytes_at 16 name.now (view value.now) }
{
    let text = text_in(value, name)?;
    BlockId::from_name(text.as_bytes())
}

#[tactic(auto, unfolding(crate::specs::Json::bytes_at))]
fn key_in(value: &Value, name: &str) -> Option<[u8; 32]>
    ensures { result ≡ bytes_at 32 name.now (view value.now) }
{
    let text = text_in(value, name)?;
    <[u8; 32] as FromHex>::from_hex(text.as_bytes()).ok()
}

#[tactic(auto, unfolding(crate::specs::Json::text_at))]
fn text_in<'a>(value: &'a Value, name: &str) -> Option<&'a str>
    ensures { option_map (λ text. text.now) result ≡ text_at name.now (view value.now) }
{
    let member = value.get(name)?;
    member.as_str()
}
