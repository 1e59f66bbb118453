// The keys that are derived from a password, and what opens under them.
ghost use Rattle.std.specs.Prelude.{[], ◌≡◌, ◌+◌, length, take, drop, IfOk, IfSome};
ghost use Rattle.std.specs.Option.{option_map};
ghost use Rattle.aes_gcm.specs.Gcm.{opened_of};
ghost use Rattle.config_file.specs.Format.{inner_key, outer_key};

use aes_gcm::Aes256Gcm;
use block_id::Memory;
use scrypt_kdf::{Params, scrypt};
use seal_api::Sealer;
use std::alloc::Global;

/// The keys of the outer and of the inner seal.
#[derive(Clone, Copy)]
pub(crate) struct Keys {
    pub(crate) outer: [u8; 32],
    pub(crate) inner: [u8; 32],
}

#[tactic(auto, unfolding(crate::specs::Format::outer_key, crate::specs::Format::inner_key))]
pub(crate) fn derive_keys(
    alloc: Global,
    password: &[u8],
    salt: &[u8],
    params: &Params,
) -> Result<Keys, Memory>
    ensures outer { IfOk result (λ keys. keys.outer ≡ outer_key password.now salt.now params.now) }
    ensures inner { IfOk result (λ keys. keys.inner ≡ inner_key password.now salt.now params.now) }
{
    let mut derived = [0; 64];
    scrypt(alloc, password, salt, params, &mut derived)?;
    Ok(halves(&derived))
}

fn halves(derived: &[u8; 64]) -> Keys
    ensures outer { result.outer ≡ take 32 derived.now }
    ensures inner { result.inner ≡ drop 32 derived.now }
{
    Keys {
        outer: key_of(&derived[..32]),
        inner: key_of(&derived[32..]),
    }
}

fn key_of(bytes: &[u8]) -> [u8; 32]
    requires { length bytes.now ≡ 32 }
    ensures { result ≡ bytes.now }
{
    let mut key = [0; 32];
    key.copy_from_slice(bytes);
    key
}

/// The plaintext of a sealed text, if it opens.
pub(crate) fn unseal(
    alloc: Global,
    key: &[u8; 32],
    sealed: &[u8],
) -> Result<Option<Vec<u8>>, Memory>
    ensures plain { IfOk result (λ answer. option_map (λ plain. plain.items) answer ≡ opened_of key.now [] sealed.now) }
    ensures len { IfOk result (λ answer. IfSome answer (λ plain. length plain.items + 32 ≡ length sealed.now)) }
{
    Aes256Gcm.unseal(alloc, key, sealed)
}
