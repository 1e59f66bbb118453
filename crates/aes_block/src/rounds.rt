// The rounds of the cipher, on planes (FIPS 197, 5.1).
ghost use Rattle.std.specs.Prelude.{◌≡◌, ℕ, List, map, replicate};
ghost use Rattle.aes_block.specs.Cipher.{add_round_key, cipher, mix_columns, round_key, shift_rows, sub_bytes};
ghost use Rattle.aes_block.specs.Planes.{repeated_keys};

use crate::planes::Planes;
use crate::sub_bytes::sub_bytes;
use crate::vectors::{add, double, next_rows, opposite_rows, shifted_rows};

/// ShiftRows (5.1.2).
#[inline(always)]
fn shift_rows(blocks: &Planes) -> Planes
    ensures { result ≡ map shift_rows blocks.now }
{
    let planes = shifted_rows(blocks.planes());
    Planes::from_planes(planes)
}

/// MixColumns (5.1.3): of a column a, b, c, d, 2 (a + b) + b + c + d.
#[inline(always)]
fn mix_columns(blocks: &Planes) -> Planes
    ensures { result ≡ map mix_columns blocks.now }
{
    let a = blocks.planes();
    let next = next_rows(a);
    let both = add(a, next);
    let planes = add(add(double(both), next), opposite_rows(both));
    Planes::from_planes(planes)
}

/// AddRoundKey (5.1.4), of a key that stands there sixteen times.
#[inline(always)]
fn add_round_key(blocks: &Planes, key: &Planes) -> Planes
    ensures { (w : List ℕ) → (r : ℕ) → key.now ≡ replicate 16 (round_key w r) → result ≡ map (add_round_key w r) blocks.now }
{
    let planes = add(blocks.planes(), key.planes());
    Planes::from_planes(planes)
}

/// One of the rounds 1 to 13.
#[inline(always)]
fn round(blocks: &Planes, key: &Planes) -> Planes
    ensures { (w : List ℕ) → (r : ℕ) → key.now ≡ replicate 16 (round_key w r) → result ≡ map (λ s. add_round_key w r (mix_columns (shift_rows (sub_bytes s)))) blocks.now }
{
    add_round_key(&mix_columns(&shift_rows(&sub_bytes(blocks))), key)
}

/// Encrypts sixteen blocks under the keys of the rounds.
pub(crate) fn encrypt(keys: &[Planes; 15], blocks: &Planes) -> Planes
    ensures { (w : List ℕ) → keys.now ≡ repeated_keys w → result ≡ map (cipher w) blocks.now }
{
    let mut state = add_round_key(blocks, &keys[0]);
    'rounds: for r in 0..13 {
        let next = round(&state, &keys[r + 1]);
        state = next;
    }
    add_round_key(&shift_rows(&sub_bytes(&state)), &keys[14])
}
