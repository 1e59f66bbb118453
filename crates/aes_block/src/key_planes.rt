// A key, ready to encrypt sixteen blocks at a time (FIPS 197, 5.1).
ghost use Rattle.std.specs.Prelude.{◌≡◌, ◌<◌, map, replicate};
ghost use Rattle.aes_block.specs.Cipher.{round_key};
ghost use Rattle.aes_block.specs.KeyExpansion.{aes256, key_expansion};

use crate::KeySchedule;
use crate::bits_sub_word::ByCircuit;
use crate::planes::Planes;
use crate::rounds::encrypt;
use std::marker::Model;

/// AES-256 under one key, sixteen blocks at a time; no look-up depends on the key or the blocks.
#[derive(Drop)]
pub struct KeyPlanes {
    key: [u8; 32],
    // Each round key, sixteen times.
    round_keys: [Planes; 15],
}

impl Model for KeyPlanes {
    ghost use Rattle.std.specs.Prelude.{◌≡◌, ℕ, List};
    ghost use Rattle.aes_block.specs.KeyExpansion.{key_expansion};
    ghost use Rattle.aes_block.specs.Planes.{repeated_keys};

    ghost Value = { List ℕ };

    ghost view = { λ planes. planes.key };

    ghost invariant = { λ planes. planes.round_keys ≡ repeated_keys (key_expansion planes.key) };
}

impl KeyPlanes {
    /// From a key that was expanded. `KeySchedule::new` looks up by the key: `from_key` doesn't.
    pub fn new(keys: &KeySchedule) -> KeyPlanes
        ensures { result ≡ keys.now }
    {
        KeyPlanes {
            key: keys.key(),
            round_keys: [
                repeated_key(keys, 0),
                repeated_key(keys, 1),
                repeated_key(keys, 2),
                repeated_key(keys, 3),
                repeated_key(keys, 4),
                repeated_key(keys, 5),
                repeated_key(keys, 6),
                repeated_key(keys, 7),
                repeated_key(keys, 8),
                repeated_key(keys, 9),
                repeated_key(keys, 10),
                repeated_key(keys, 11),
                repeated_key(keys, 12),
                repeated_key(keys, 13),
                repeated_key(keys, 14),
            ],
        }
    }

    /// From a key, which is expanded without a look-up.
    pub fn from_key(key: &[u8; 32]) -> KeyPlanes
        ensures { result ≡ key.now }
    {
        KeyPlanes::new(&KeySchedule::expanded_by(key, &ByCircuit))
    }

    /// A block, encrypted under the key, in the time of sixteen.
    pub fn encrypt_block(&self, block: [u8; 16]) -> [u8; 16]
        ensures { result ≡ aes256 self.now block }
    {
        let blocks = encrypt(&self.round_keys, &Planes::repeated(block)).blocks();
        blocks[0]
    }

    /// Eight blocks, each encrypted by itself under the key, in the time of sixteen.
    pub fn encrypt_blocks(&self, blocks: &[[u8; 16]; 8]) -> [[u8; 16]; 8]
        ensures { result ≡ map (aes256 self.now) blocks.now }
    {
        let [b0, b1, b2, b3, b4, b5, b6, b7] = *blocks;
        let all = self.encrypt_sixteen(&[
            b0, b1, b2, b3, b4, b5, b6, b7, b0, b1, b2, b3, b4, b5, b6, b7,
        ]);
        [
            all[0], all[1], all[2], all[3], all[4], all[5], all[6], all[7],
        ]
    }

    /// Sixteen blocks, each encrypted by itself under the key.
    pub fn encrypt_sixteen(&self, blocks: &[[u8; 16]; 16]) -> [[u8; 16]; 16]
        ensures { result ≡ map (aes256 self.now) blocks.now }
    {
        encrypt(&self.round_keys, &Planes::new(blocks)).blocks()
    }
}

/// The key of round r, sixteen times.
fn repeated_key(keys: &KeySchedule, r: usize) -> Planes
    requires { r < 15 }
    ensures { result ≡ replicate 16 (round_key (key_expansion keys.now) r) }
{
    Planes::repeated(keys.round_key(r))
}
