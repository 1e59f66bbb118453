// Sealing as the standard writes it, block by block and bit by bit: what the tests compare with
// (SP 800-38D, 6 and 7).
ghost use Rattle.std.specs.Prelude.{◌≡◌, ◌+◌, ◌*◌, ◌<◌, ◌≤◌, ◌++◌, ℕ, List, length, IfOk, OnOk};
ghost use Rattle.std.specs.Int.{w128, to_be_bytes};
ghost use Rattle.aes_block.specs.KeyExpansion.{aes256};
ghost use Rattle.aes_gcm.specs.Gcm.{bit_length, crypt, first_counter, hash_subkey, padded, tag_of};
ghost use Rattle.aes_gcm.specs.Gctr.{gctr};
ghost use Rattle.aes_gcm.specs.Ghash.{block_at, ghash, times};

use crate::plain_steps::{FIRST_COUNT, add_block, bit_lengths, inc32, next_v};
use aes_block::KeySchedule;
use block_id::Memory;
use std::alloc::{AllocError, Global};

/// The ciphertext of a plaintext, and the tag over it and the extra bytes (7.1).
pub(crate) fn plain_seal(
    alloc: Global,
    keys: &KeySchedule,
    iv: &[u8],
    extra: &[u8],
    plain: &[u8],
) -> Result<(Vec<u8>, [u8; 16]), Memory>
    ensures text { IfOk result (λ sealed. sealed.0.items ≡ crypt (aes256 keys.now) iv.now plain.now) }
    ensures tag { IfOk result (λ sealed. sealed.1 ≡ tag_of (aes256 keys.now) iv.now extra.now (crypt (aes256 keys.now) iv.now plain.now)) }
{
    let subkey = u128::from_be_bytes(keys.encrypt([0; 16]));
    let counter = first_counter(alloc, subkey, iv)?;
    let text = crypted(alloc, keys, inc32(counter), plain)?;
    let mut tag = tag_hash(alloc, subkey, extra, &text)?;
    gctr(keys, counter, &mut tag);
    Ok((text, tag))
}

/// Step 2: the block that counts in the first place.
fn first_counter(alloc: Global, subkey: u128, iv: &[u8]) -> Result<[u8; 16], AllocError>
    ensures { (cipher : List ℕ → List ℕ) → subkey ≡ hash_subkey cipher → IfOk result (λ counter. counter ≡ first_counter cipher iv.now) }
{
    let mut counter = FIRST_COUNT;
    if iv.len() == 12 {
        counter[..12].copy_from_slice(iv);
        return Ok(counter);
    }
    let mut blocks = Vec::new(alloc);
    push_padded(iv, &mut blocks)?;
    blocks.extend_from_slice(&bit_lengths(0, iv.len()))?;
    Ok(ghash(subkey, &blocks))
}

/// Steps 4 and 5: the hash of the extra bytes and the ciphertext.
fn tag_hash(alloc: Global, subkey: u128, extra: &[u8], text: &[u8]) -> Result<[u8; 16], AllocError>
    ensures { IfOk result (λ hash. hash ≡ ghash subkey (padded extra.now ++ padded text.now ++ bit_length extra.now ++ bit_length text.now)) }
{
    let mut blocks = Vec::new(alloc);
    push_padded(extra, &mut blocks)?;
    push_padded(text, &mut blocks)?;
    blocks.extend_from_slice(&bit_lengths(extra.len(), text.len()))?;
    Ok(ghash(subkey, &blocks))
}

/// Appends some bytes, with zeros up to a whole number of blocks.
fn push_padded(bytes: &[u8], out: &mut Vec<u8>) -> Result<(), AllocError>
    ensures { OnOk result (out.new.items ≡ out.old.items ++ padded bytes.now) }
{
    let zeros = (16 - bytes.len() % 16) % 16;
    out.extend_from_slice(bytes)?;
    out.extend_from_slice(&[0; 16][..zeros])?;
    Ok(())
}

/// Step 3: a text, encrypted from a counter block on.
fn crypted(
    alloc: Global,
    keys: &KeySchedule,
    initial: [u8; 16],
    text: &[u8],
) -> Result<Vec<u8>, AllocError>
    ensures { IfOk result (λ crypted. crypted.items ≡ gctr (aes256 keys.now) initial text.now) }
{
    let mut bytes = Vec::new(alloc);
    bytes.extend_from_slice(text)?;
    gctr(keys, initial, &mut bytes);
    Ok(bytes)
}

/// GCTR, one block at a time (6.5).
fn gctr(keys: &KeySchedule, initial: [u8; 16], text: &mut [u8])
    ensures { text.new ≡ gctr (aes256 keys.now) initial text.old }
{
    let count = text.len().div_ceil(16);
    let mut counter = initial;
    'turns: for i in 0..count {
        add_block(text, 16 * i, &keys.encrypt(counter));
        let next = inc32(counter);
        counter = next;
    }
}

/// GHASH (6.4).
fn ghash(subkey: u128, bytes: &[u8]) -> [u8; 16]
    ensures { result ≡ ghash subkey bytes.now }
{
    let mut hash: u128 = 0;
    let count = bytes.len() / 16;
    'turns: for i in 0..count {
        let sum = hash ^ load(bytes, i);
        hash = times(sum, subkey);
    }
    hash.to_be_bytes()
}

/// Block i of a whole number of blocks.
fn load(bytes: &[u8], i: usize) -> u128
    requires { 16 * i + 16 ≤ length bytes.now }
    ensures { result ≡ block_at bytes.now i }
{
    let mut block = [0u8; 16];
    block.copy_from_slice(&bytes[16 * i..16 * i + 16]);
    u128::from_be_bytes(block)
}

/// The product of two blocks, one bit at a time (6.3).
fn times(x: u128, y: u128) -> u128
    ensures { result ≡ times x y }
{
    let mut z: u128 = 0;
    let mut v = y;
    'bits: for i in 0..128u32 {
        if (x >> (127 - i)) % 2 == 1 {
            z ^= v;
        }
        v = next_v(v);
    }
    z
}
