// GCM with AES-256 and tags of sixteen bytes (SP 800-38D, 7).
ghost use Rattle.std.specs.Prelude.{◌≡◌, ◌≢◌, ◌↔◌, ◌<◌, ◌++◌, length, IfOk, OnOk, OnErr, IsNone};
ghost use Rattle.std.specs.Option.{option_map};
ghost use Rattle.aes_block.specs.KeyExpansion.{aes256};
ghost use Rattle.aes_gcm.specs.Gcm.{crypt, opened, tag_of};

use crate::gcm_key::GcmKey;
use aes_block::KeySchedule;
use block_id::Memory;
use std::alloc::Global;

/// Appends the ciphertext of a plaintext to `out`, and answers the tag over it and the extra bytes
/// (SP 800-38D, 7.1).
pub fn gcm_seal(
    keys: &KeySchedule,
    iv: &[u8],
    extra: &[u8],
    plain: &[u8],
    out: &mut Vec<u8>,
) -> Result<[u8; 16], Memory>
    requires { 0 < length iv.now }
    ensures text { OnOk result (out.new.items ≡ out.old.items ++ crypt (aes256 keys.now) iv.now plain.now) }
    ensures tag { IfOk result (λ tag. tag ≡ tag_of (aes256 keys.now) iv.now extra.now (crypt (aes256 keys.now) iv.now plain.now)) }
    ensures err { OnErr result (out.new.items ≡ out.old.items) }
{
    let start = out.len();
    out.extend_from_slice(plain)?;
    Ok(GcmKey::new(keys).seal(iv, extra, &mut out[start..]))
}

/// The plaintext of a ciphertext, or None where the tag over it and the extra bytes is another
/// (SP 800-38D, 7.2).
pub fn gcm_unseal(
    alloc: Global,
    keys: &KeySchedule,
    iv: &[u8],
    extra: &[u8],
    text: &[u8],
    tag: &[u8; 16],
) -> Result<Option<Vec<u8>>, Memory>
    requires { 0 < length iv.now }
    ensures plain { IfOk result (λ answer. option_map (λ plain. plain.items) answer ≡ opened (aes256 keys.now) iv.now extra.now text.now tag.now) }
    ensures refused { IfOk result (λ answer. IsNone answer ↔ (tag.now ≢ tag_of (aes256 keys.now) iv.now extra.now text.now)) }
{
    GcmKey::new(keys).unseal(alloc, iv, extra, text, tag)
}
