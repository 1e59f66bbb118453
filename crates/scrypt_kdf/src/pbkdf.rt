// PBKDF2 over HMAC-SHA-256, with one iteration (RFC 8018).

ghost use Rattle.std.specs.Prelude.{◌≡◌, ◌≤◌, ◌++◌, ℕ, List, length};
ghost use Rattle.std.specs.Int.{w32, to_be_bytes};
ghost use Rattle.sha2.specs.Hashers.{Holds256};
ghost use Rattle.sha2.specs.Sha256.{sha256};
ghost use Rattle.scrypt_kdf.specs.Pbkdf2.{pbkdf2};

use crate::hmac::{INNER_PAD, OUTER_PAD, key_block, padded};
use sha2::{Digest, Sha256};

const BLOCK_LEN: usize = 32;

/// Fills `out` with the key that one iteration derives from `password` and `salt` (RFC 8018,
/// section 5.2). It takes time for one hash of each, and for three blocks of SHA-256 each 32 bytes
/// of `out`.
pub fn pbkdf2(password: &[u8], salt: &[u8], out: &mut [u8])
    requires { length out.old ≤ 65536 }
    ensures { out.new ≡ pbkdf2 password.now salt.now (length out.old) }
{
    let block = key_block(password);
    let mut inner = padded(&block, INNER_PAD);
    inner.update(salt);
    let outer = padded(&block, OUTER_PAD);
    let len = out.len();
    for i in 0..len.div_ceil(BLOCK_LEN) {
        let part = numbered(&inner, &outer, i as u32 + 1);
        let at = BLOCK_LEN * i;
        let end = len.min(at + BLOCK_LEN);
        out[at..end].copy_from_slice(&part[..end - at]);
    }
}

/// What the two hashers make of the number `i`, four bytes, high first.
fn numbered(inner: &Sha256, outer: &Sha256, i: u32) -> [u8; 32]
    ensures { (m n : List ℕ) → Holds256 inner.now m → Holds256 outer.now n
        → result ≡ sha256 (n ++ sha256 (m ++ to_be_bytes w32 i)) }
{
    let mut inner = copy(inner);
    inner.update(&i.to_be_bytes());
    let mut outer = copy(outer);
    outer.update(&inner.finalize());
    outer.finalize()
}

fn copy(hasher: &Sha256) -> Sha256
    ensures { result ≡ hasher.now }
{
    hasher.clone().unwrap()
}
