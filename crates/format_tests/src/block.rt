// The cipher on one block and on eight, against its standard and against each other.
ghost use Rattle.std.specs.Prelude.{◌<◌};

use crate::rows::tell;
use crate::words::{array, hex_of, number, say, words_of};
use aes_block::{KeyPlanes, KeySchedule};
use std::alloc::Global;
use std::test::Fail;

/// What a block is encrypted to in one of the eight places.
fn encrypts_at(keys: &KeyPlanes, block: [u8; 16], place: usize) -> [u8; 16]
    requires { place < 8 }
{
    let mut blocks: [[u8; 16]; 8] = [[0; 16]; 8];
    blocks[place] = block;
    keys.encrypt_blocks(&blocks)[place]
}

/// Whether the cipher on eight blocks has this text in each place, under the key that either way expands.
fn is_everywhere(key: &[u8; 32], block: [u8; 16], text: [u8; 16]) -> bool {
    let plain = KeyPlanes::new(&KeySchedule::new(key));
    let keys = KeyPlanes::from_key(key);
    let mut same = keys.encrypt_block(block) == text;
    for place in 0..8 {
        same = same && encrypts_at(&plain, block, place) == text;
        same = same && encrypts_at(&keys, block, place) == text;
    }
    same
}

/// What a block is encrypted to under a key, by the cipher on one block and by that on eight.
pub(crate) fn encrypted(alloc: Global, rest: &str) -> Result<String, Fail> {
    let [key, block, ..] = words_of(rest);
    let (key, block) = (array(key), array(block));
    let text = KeySchedule::new(&key).encrypt(block);
    if is_everywhere(&key, block, text) {
        hex_of(alloc, &text)
    } else {
        say(alloc, "another text among eight")
    }
}

/// The key of a round, or the key that was expanded.
pub(crate) fn round_key(alloc: Global, rest: &str) -> Result<String, Fail> {
    let [key, round, ..] = words_of(rest);
    let keys = KeySchedule::new(&array(key));
    if round == "whole" {
        return hex_of(alloc, &keys.key());
    }
    let round = number(round);
    if round > 14 {
        return say(alloc, "none");
    }
    hex_of(alloc, &keys.round_key(round))
}

/// Eight blocks, one behind another.
fn eight_of(bytes: &[u8; 128]) -> [[u8; 16]; 8] {
    let mut blocks: [[u8; 16]; 8] = [[0; 16]; 8];
    for place in 0..8usize {
        for byte in 0..16usize {
            blocks[place][byte] = bytes[16 * place + byte];
        }
    }
    blocks
}

/// Eight blocks, encrypted one by one.
fn one_by_one(key: &[u8; 32], blocks: &[[u8; 16]; 8]) -> [[u8; 16]; 8] {
    let schedule = KeySchedule::new(key);
    let mut texts: [[u8; 16]; 8] = [[0; 16]; 8];
    for place in 0..8usize {
        texts[place] = schedule.encrypt(blocks[place]);
    }
    texts
}

/// A key of two blocks.
fn joined(first: [u8; 16], second: [u8; 16]) -> [u8; 32] {
    let mut key: [u8; 32] = [0; 32];
    key[..16].copy_from_slice(&first);
    key[16..].copy_from_slice(&second);
    key
}

/// Eight blocks under fifty keys, each made of what came before, or none where the cipher on one block has another text.
fn after_turns(mut key: [u8; 32], mut blocks: [[u8; 16]; 8]) -> Option<[[u8; 16]; 8]> {
    for _ in 0..50 {
        let texts = KeyPlanes::from_key(&key).encrypt_blocks(&blocks);
        if texts != one_by_one(&key, &blocks) {
            return None;
        }
        key = joined(texts[2], texts[5]);
        blocks = texts;
    }
    Some(blocks)
}

/// What eight blocks are after fifty turns.
pub(crate) fn after_fifty(alloc: Global, rest: &str) -> Result<String, Fail> {
    let [key, blocks, ..] = words_of(rest);
    let Some(blocks) = after_turns(array(key), eight_of(&array(blocks))) else {
        return say(alloc, "the cipher on one block has another text");
    };
    let mut bytes = Vec::new(alloc);
    for block in &blocks {
        bytes.extend_from_slice(block)?;
    }
    hex_of(alloc, &bytes)
}

/// FIPS 197, C.3 and A.3, and what OpenSSL has after fifty turns.
const BLOCKS: &str =
    "block 000102030405060708090a0b0c0d0e0f101112131415161718191a1b1c1d1e1f 00112233445566778899aabbccddeeff = 8ea2b7ca516745bfeafc49904b496089
round-key 603deb1015ca71be2b73aef0857d77811f352c073b6108d72d9810a30914dff4 whole = 603deb1015ca71be2b73aef0857d77811f352c073b6108d72d9810a30914dff4
round-key 603deb1015ca71be2b73aef0857d77811f352c073b6108d72d9810a30914dff4 0 = 603deb1015ca71be2b73aef0857d7781
round-key 603deb1015ca71be2b73aef0857d77811f352c073b6108d72d9810a30914dff4 1 = 1f352c073b6108d72d9810a30914dff4
round-key 603deb1015ca71be2b73aef0857d77811f352c073b6108d72d9810a30914dff4 2 = 9ba354118e6925afa51a8b5f2067fcde
round-key 603deb1015ca71be2b73aef0857d77811f352c073b6108d72d9810a30914dff4 14 = fe4890d1e6188d0b046df344706c631e
after-fifty 000102030405060708090a0b0c0d0e0f101112131415161718191a1b1c1d1e1f 000102030405060708090a0b0c0d0e0f101112131415161718191a1b1c1d1e1f202122232425262728292a2b2c2d2e2f303132333435363738393a3b3c3d3e3f404142434445464748494a4b4c4d4e4f505152535455565758595a5b5c5d5e5f606162636465666768696a6b6c6d6e6f707172737475767778797a7b7c7d7e7f = 8c689da89e35211aef67b0ce38dbff932c94dec3e9b386baf5289e4a5c42d626563818bc3498e30d2692df284b8fc9334d035ed337e0757148bf7006bed79973168db0c77e7a6dccd8c9220da8a77d76a8ff54eab55f738647a2306071c6ca43bc1c9a97b59b25c22190d691855c410b10895d05b46456531f4129621bc6bdee";

#[test]
fn encrypts_as_fips_197(rt: HostRuntime) -> Result<(), Fail> {
    tell(&rt, BLOCKS)
}
