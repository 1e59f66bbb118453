// A key, expanded to the keys of the rounds (FIPS 197, 5.2).
ghost use Rattle.std.specs.Prelude.{◌≡◌, ◌+◌, ◌/◌, ◌%◌, ◌<◌, take};
ghost use Rattle.aes_block.specs.Cipher.{round_key};
ghost use Rattle.aes_block.specs.KeyExpansion.{add_word, aes256, key_expansion, key_step, x_power};

use crate::cipher::{EXPANDED_LEN, encrypt_with, xtime};
use crate::sub_word::{ByTable, SubWord};
use std::marker::Model;

/// A key of 32 bytes, ready to encrypt blocks.
#[derive(Clone, Copy)]
pub struct KeySchedule {
    // The round keys, the first two of which are the key.
    words: [u8; EXPANDED_LEN],
}

impl Model for KeySchedule {
    ghost use Rattle.std.specs.Prelude.{◌≡◌, ℕ, List, take};
    ghost use Rattle.std.proofs.Common.{sym};
    ghost use Rattle.aes_block.specs.KeyExpansion.{key_expansion};

    ghost Value = { List ℕ };

    ghost view = { λ keys. take 32 keys.words };

    ghost invariant = { λ keys. keys.words ≡ key_expansion (take 32 keys.words) };

    ghost inverse = { λ key. record { words = key_expansion key } };

    ghost inverse_ok = { λ keys expanded. λ i. record { words = sym expanded i } };
}

impl KeySchedule {
    /// Expands the key. Look-ups depend on it: `expanded_by` takes another way.
    pub fn new(key: &[u8; 32]) -> KeySchedule
        ensures { result ≡ key.now }
    {
        KeySchedule::expanded_by(key, &ByTable)
    }

    /// Expands the key, with SubWord as it is given.
    pub fn expanded_by<S: SubWord>(key: &[u8; 32], way: &S) -> KeySchedule
        ensures { result ≡ key.now }
    {
        KeySchedule {
            words: expand(key, way),
        }
    }

    /// The key.
    pub fn key(&self) -> [u8; 32]
        ensures { result ≡ self.now }
    {
        let mut key = [0u8; 32];
        key.copy_from_slice(&self.words[..32]);
        key
    }

    /// The key of round r, where round 0 adds the first.
    pub fn round_key(&self, r: usize) -> [u8; 16]
        requires { r < 15 }
        ensures { result ≡ round_key (key_expansion self.now) r }
    {
        let mut key = [0u8; 16];
        key.copy_from_slice(&self.words[16 * r..16 * r + 16]);
        key
    }

    /// The block, encrypted by AES-256 under the key.
    pub fn encrypt(&self, block: [u8; 16]) -> [u8; 16]
        ensures { result ≡ aes256 self.now block }
    {
        encrypt_with(&self.words, block)
    }
}

/// The 60 words of a key, as bytes.
fn expand<S: SubWord>(key: &[u8; 32], way: &S) -> [u8; EXPANDED_LEN]
    ensures { result ≡ key_expansion key.now }
{
    let mut k = first_words(key);
    let mut power: u8 = 1;
    'words: for n in 0..52 {
        let last = [k[4 * n + 28], k[4 * n + 29], k[4 * n + 30], k[4 * n + 31]];
        let step = key_step(n, power, last, way);
        if n % 8 == 0 {
            power = xtime(power);
        }
        let first = [k[4 * n], k[4 * n + 1], k[4 * n + 2], k[4 * n + 3]];
        k[4 * n + 32..4 * n + 36].copy_from_slice(&add_word(first, step));
    }
    k
}

/// Room for the 60 words, the first eight of which are the key.
fn first_words(key: &[u8; 32]) -> [u8; EXPANDED_LEN]
    ensures { take 32 result ≡ key.now }
{
    let mut k = [0u8; EXPANDED_LEN];
    k[..32].copy_from_slice(key);
    k
}

/// What word n is added to, given word n + 7, for word n + 8.
#[inline(always)]
fn key_step<S: SubWord>(n: usize, power: u8, w: [u8; 4], way: &S) -> [u8; 4]
    requires below { n < 52 }
    requires power { n % 8 ≡ 0 → power ≡ x_power (n / 8) }
    ensures { result ≡ key_step (n + 8) w }
{
    if n % 8 == 0 {
        let s = way.sub_word([w[1], w[2], w[3], w[0]]);
        [s[0] ^ power, s[1], s[2], s[3]]
    } else if n % 8 == 4 {
        way.sub_word(w)
    } else {
        w
    }
}

#[inline(always)]
fn add_word(v: [u8; 4], w: [u8; 4]) -> [u8; 4]
    ensures { result ≡ add_word v w }
{
    [v[0] ^ w[0], v[1] ^ w[1], v[2] ^ w[2], v[3] ^ w[3]]
}
