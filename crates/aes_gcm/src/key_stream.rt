// The key stream of counter mode, made sixteen blocks a turn, and its sum with a text (SP 800-38D, 6.5).
ghost use Rattle.std.specs.Prelude.{◌≡◌, ◌≤◌, ◌+◌, ◌-◌, ◌*◌, ◌/◌, ◌%◌, ◌<◌, ℕ, [], length, slice_index, slice_index_or, bit_xor};
ghost use Rattle.aes_block.specs.KeyExpansion.{aes256};
ghost use Rattle.aes_gcm.specs.Gctr.{HasStream, gctr, inc32};

use crate::counter::{sixteen_after, sixteen_counters};
use aes_block::KeyPlanes;
use std::simd::u8x16;

/// The bytes of a block.
const BLOCK_LEN: usize = 16;

/// The bytes of a turn.
const TURN_LEN: usize = 16 * BLOCK_LEN;

/// The first sixteen blocks of the key stream from a counter block on.
pub(crate) fn first_turn(keys: &KeyPlanes, first: [u8; 16]) -> [[u8; 16]; 16]
    ensures { HasStream (aes256 keys.now) first result }
{
    keys.encrypt_sixteen(&sixteen_counters(first))
}

/// Adds the key stream without its first block to a text, given its first sixteen blocks.
pub(crate) fn crypt(keys: &KeyPlanes, first: [u8; 16], turn: &[[u8; 16]; 16], text: &mut [u8])
    requires { HasStream (aes256 keys.now) first turn.now }
    ensures { text.new ≡ gctr (aes256 keys.now) (inc32 first) text.old }
{
    add_blocks(text, 0, &turn[1..]);
    let front = text.len().min(TURN_LEN - BLOCK_LEN);
    gctr(keys, sixteen_after(first), &mut text[front..]);
}

/// Adds the key stream from a counter block on to a text.
fn gctr(keys: &KeyPlanes, initial: [u8; 16], text: &mut [u8])
    ensures { text.new ≡ gctr (aes256 keys.now) initial text.old }
{
    let count = text.len().div_ceil(TURN_LEN);
    let mut counter = initial;
    'turns: for i in 0..count {
        let turn = first_turn(keys, counter);
        add_blocks(text, TURN_LEN * i, &turn);
        let next = sixteen_after(counter);
        counter = next;
    }
}

/// Adds blocks to the bytes from `start` on, as far as there are both.
#[inline(always)]
fn add_blocks(text: &mut [u8], start: usize, blocks: &[[u8; 16]])
    requires { start ≤ length text.old }
    ensures inside { (k : ℕ) → start ≤ k → k < start + 16 * length blocks.now → k < length text.old → slice_index text.new k ≡ bit_xor (slice_index text.old k) (slice_index (slice_index_or blocks.now ((k - start) / 16) []) ((k - start) % 16)) }
    ensures before { (k : ℕ) → k < start → slice_index text.new k ≡ slice_index text.old k }
    ensures after { (k : ℕ) → start + 16 * length blocks.now ≤ k → slice_index text.new k ≡ slice_index text.old k }
{
    let rest = text.len() - start;
    let count = rest.div_ceil(BLOCK_LEN).min(blocks.len());
    'each: for j in 0..count {
        add_block(text, start + BLOCK_LEN * j, &blocks[j]);
    }
}

/// Adds a block to the sixteen bytes from `start` on, or to those that there are.
#[inline(always)]
pub(crate) fn add_block(text: &mut [u8], start: usize, block: &[u8; 16])
    requires { start ≤ length text.old }
    ensures inside { (j : ℕ) → j < 16 → start + j < length text.old → slice_index text.new (start + j) ≡ bit_xor (slice_index text.old (start + j)) (slice_index block.now j) }
    ensures before { (k : ℕ) → k < start → slice_index text.new k ≡ slice_index text.old k }
    ensures after { (k : ℕ) → start + 16 ≤ k → slice_index text.new k ≡ slice_index text.old k }
{
    if BLOCK_LEN <= text.len() - start {
        add_whole(text, start, block);
    } else {
        add_part(text, start, block);
    }
}

/// Adds a block to the sixteen bytes from `start` on.
#[inline(always)]
fn add_whole(text: &mut [u8], start: usize, block: &[u8; 16])
    requires { start + 16 ≤ length text.old }
    ensures inside { (j : ℕ) → j < 16 → slice_index text.new (start + j) ≡ bit_xor (slice_index text.old (start + j)) (slice_index block.now j) }
    ensures before { (k : ℕ) → k < start → slice_index text.new k ≡ slice_index text.old k }
    ensures after { (k : ℕ) → start + 16 ≤ k → slice_index text.new k ≡ slice_index text.old k }
{
    let sum = u8x16::from_slice(&text[start..]) ^ u8x16::from_array(*block);
    sum.copy_to_slice(&mut text[start..]);
}

/// Adds a block to the bytes from `start` on, of which there are fewer than sixteen.
fn add_part(text: &mut [u8], start: usize, block: &[u8; 16])
    requires start { start ≤ length text.old }
    requires end { length text.old < start + 16 }
    ensures inside { (j : ℕ) → j < 16 → start + j < length text.old → slice_index text.new (start + j) ≡ bit_xor (slice_index text.old (start + j)) (slice_index block.now j) }
    ensures before { (k : ℕ) → k < start → slice_index text.new k ≡ slice_index text.old k }
{
    let len = text.len() - start;
    'bytes: for j in 0..len {
        text[start + j] ^= block[j];
    }
}
