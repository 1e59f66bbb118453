// HMAC over SHA-256 (RFC 2104).

ghost use Rattle.std.specs.Prelude.{◌≡◌, map, bit_xor};
ghost use Rattle.sha2.specs.Hashers.{Holds256};
ghost use Rattle.scrypt_kdf.specs.Hmac.{hmac_sha256, key_block};

use sha2::{Digest, Sha256};

const BLOCK_LEN: usize = 64;

const DIGEST_LEN: usize = 32;

pub(crate) const INNER_PAD: u8 = 0x36;

pub(crate) const OUTER_PAD: u8 = 0x5c;

/// The HMAC-SHA-256 of `text` under `key` (RFC 2104, section 2).
pub fn hmac_sha256(key: &[u8], text: &[u8]) -> [u8; 32]
    ensures { result ≡ hmac_sha256 key.now text.now }
{
    let block = key_block(key);
    let mut inner = padded(&block, INNER_PAD);
    inner.update(text);
    let mut outer = padded(&block, OUTER_PAD);
    outer.update(&inner.finalize());
    outer.finalize()
}

/// The key, hashed if it is longer than a block, and padded with zeros to a block.
pub(crate) fn key_block(key: &[u8]) -> [u8; 64]
    ensures { result ≡ key_block key.now }
{
    let mut block = [0u8; BLOCK_LEN];
    if key.len() > BLOCK_LEN {
        let hash = Sha256::digest(key);
        block[..DIGEST_LEN].copy_from_slice(&hash);
    } else {
        block[..key.len()].copy_from_slice(key);
    }
    block
}

/// A hasher that holds a block xored with `byte`.
pub(crate) fn padded(block: &[u8; 64], byte: u8) -> Sha256
    ensures { Holds256 result (map (λ x. bit_xor x byte) block.now) }
{
    let mut pad = *block;
    for x in pad.iter_mut() {
        *x ^= byte;
    }
    Sha256::new_with_prefix(&pad)
}
