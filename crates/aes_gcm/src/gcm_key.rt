// A key of AES-256 in GCM, made ready (SP 800-38D, 7).
ghost use Rattle.std.specs.Prelude.{◌≡◌, ◌≢◌, ◌↔◌, ◌+◌, ◌*◌, ◌%◌, ◌^◌, ◌<◌, ◌++◌, false, length, take, IfOk, OnOk, OnErr, IsNone};
ghost use Rattle.std.specs.Int.{w64, to_be_bytes};
ghost use Rattle.std.specs.Option.{option_map};
ghost use Rattle.aes_block.specs.KeyExpansion.{aes256};
ghost use Rattle.seal_api.specs.Sealing.{shown};
ghost use Rattle.aes_gcm.specs.Gcm.{bit_length, crypt, first_counter, hash_subkey, opened, padded, tag_of};
ghost use Rattle.aes_gcm.specs.Gctr.{HasStream, gctr, inc32};
ghost use Rattle.aes_gcm.specs.Ghash.{ghash};

use crate::hash_key::HashKey;
use crate::key_stream::{add_block, crypt, first_turn};
use aes_block::{KeyPlanes, KeySchedule};
use block_id::Memory;
use std::alloc::{AllocError, Global};
use std::marker::Model;

/// A counter block that counts 1, with room for an IV of twelve bytes.
const FIRST_COUNT: [u8; 16] = [0, 0, 0, 0, 0, 0, 0, 0, 0, 0, 0, 0, 0, 0, 0, 1];

/// A key with what sealing needs of it: the planes of its round keys, and the tables of its hash subkey.
#[derive(Drop)]
pub struct GcmKey {
    planes: KeyPlanes,
    hash: HashKey,
}

impl Model for GcmKey {
    ghost use Rattle.std.specs.Prelude.{◌≡◌, ℕ, List};
    ghost use Rattle.aes_block.specs.KeyExpansion.{aes256};
    ghost use Rattle.aes_gcm.specs.Gcm.{hash_subkey};

    ghost Value = { List ℕ };

    ghost view = { λ key. key.planes };

    ghost invariant = { λ key. key.hash ≡ hash_subkey (aes256 key.planes) };
}

impl GcmKey {
    /// Makes an expanded key ready.
    pub fn new(keys: &KeySchedule) -> GcmKey
        ensures { result ≡ keys.now }
    {
        GcmKey::with_planes(KeyPlanes::new(keys))
    }

    /// Makes a key ready; no look-up in expanding it depends on the key.
    pub fn from_key(key: &[u8; 32]) -> GcmKey
        ensures { result ≡ key.now }
    {
        GcmKey::with_planes(KeyPlanes::from_key(key))
    }

    #[inline(always)]
    fn with_planes(planes: KeyPlanes) -> GcmKey
        ensures { result ≡ planes }
    {
        let mut hash = HashKey::zero();
        hash.set(subkey_of(&planes));
        GcmKey { planes, hash }
    }

    /// Turns a plaintext into its ciphertext where it stands, and answers the tag over it and the
    /// extra bytes (SP 800-38D, 7.1).
    pub fn seal(&self, iv: &[u8], extra: &[u8], text: &mut [u8]) -> [u8; 16]
        requires { 0 < length iv.now }
        ensures text { text.new ≡ crypt (aes256 self.now) iv.now text.old }
        ensures tag { result ≡ tag_of (aes256 self.now) iv.now extra.now (crypt (aes256 self.now) iv.now text.old) }
    {
        let counter = self.first_counter(iv);
        let turn = first_turn(&self.planes, counter);
        crypt(&self.planes, counter, &turn, text);
        self.tag_under(counter, &turn[0], extra, text)
    }

    /// The plaintext of a ciphertext, or None where the tag over it and the extra bytes is another
    /// (SP 800-38D, 7.2).
    pub fn unseal(
        &self,
        alloc: Global,
        iv: &[u8],
        extra: &[u8],
        text: &[u8],
        tag: &[u8; 16],
    ) -> Result<Option<Vec<u8>>, Memory>
        requires { 0 < length iv.now }
        ensures plain { IfOk result (λ answer. option_map (λ plain. plain.items) answer ≡ opened (aes256 self.now) iv.now extra.now text.now tag.now) }
        ensures refused { IfOk result (λ answer. IsNone answer ↔ (tag.now ≢ tag_of (aes256 self.now) iv.now extra.now text.now)) }
    {
        self.unseal_front(alloc, iv, extra, text, tag, text.len())
    }

    /// The first bytes of that plaintext, at most so many. The tag is that over the whole ciphertext; no more than the front is
    /// decrypted.
    pub fn unseal_front(
        &self,
        alloc: Global,
        iv: &[u8],
        extra: &[u8],
        text: &[u8],
        tag: &[u8; 16],
        most: usize,
    ) -> Result<Option<Vec<u8>>, Memory>
        requires { 0 < length iv.now }
        ensures plain { IfOk result (λ answer. option_map (λ plain. plain.items) answer ≡ option_map (take most) (opened (aes256 self.now) iv.now extra.now text.now tag.now)) }
        ensures refused { IfOk result (λ answer. IsNone answer ↔ (tag.now ≢ tag_of (aes256 self.now) iv.now extra.now text.now)) }
    {
        let counter = self.first_counter(iv);
        let turn = first_turn(&self.planes, counter);
        if self.tag_under(counter, &turn[0], extra, text) != *tag {
            return Ok(None);
        }
        let front = &text[..most.min(text.len())];
        let mut plain = Vec::new(alloc);
        append_crypted(&self.planes, counter, &turn, front, &mut plain)?;
        Ok(Some(plain))
    }

    /// Turns a ciphertext into its plaintext where it stands, as far as its first bytes, at most so many, where the tag over it
    /// and the extra bytes is this one, and says whether it is (SP 800-38D, 7.2).
    pub fn unseal_in_place(
        &self,
        iv: &[u8],
        extra: &[u8],
        text: &mut [u8],
        tag: &[u8; 16],
        most: usize,
    ) -> bool
        requires { 0 < length iv.now }
        ensures opened { shown most result text.new ≡ option_map (take most) (opened (aes256 self.now) iv.now extra.now text.old tag.now) }
        ensures refused { result ≡ false → text.new ≡ text.old }
    {
        let counter = self.first_counter(iv);
        let turn = first_turn(&self.planes, counter);
        let expected = self.tag_under(counter, &turn[0], extra, text);
        if expected != *tag {
            return false;
        }
        let len = most.min(text.len());
        crypt(&self.planes, counter, &turn, &mut text[..len]);
        true
    }

    /// The block that counts in the first place.
    fn first_counter(&self, iv: &[u8]) -> [u8; 16]
        ensures { result ≡ first_counter (aes256 self.now) iv.now }
    {
        if iv.len() == 12 {
            let mut counter = FIRST_COUNT;
            counter[..12].copy_from_slice(iv);
            counter
        } else {
            let sum = self.hash.absorb(0, iv);
            let lengths = bit_lengths(0, iv.len());
            self.hash.absorb(sum, &lengths).to_be_bytes()
        }
    }

    /// The tag over the extra bytes and the ciphertext, given a first counter and what it is
    /// encrypted to.
    fn tag_under(&self, counter: [u8; 16], mask: &[u8; 16], extra: &[u8], text: &[u8]) -> [u8; 16]
        requires { mask.now ≡ aes256 self.now counter }
        ensures { result ≡ gctr (aes256 self.now) counter (ghash (hash_subkey (aes256 self.now)) (padded extra.now ++ padded text.now ++ bit_length extra.now ++ bit_length text.now)) }
    {
        let sum = self.hash.absorb(self.hash.absorb(0, extra), text);
        let lengths = bit_lengths(extra.len(), text.len());
        let mut tag = self.hash.absorb(sum, &lengths).to_be_bytes();
        add_block(&mut tag, 0, mask);
        tag
    }
}

/// The hash subkey.
fn subkey_of(planes: &KeyPlanes) -> u128
    ensures { result ≡ hash_subkey (aes256 planes.now) }
{
    let turn = first_turn(planes, [0; 16]);
    u128::from_be_bytes(turn[0])
}

/// Appends a text, encrypted or decrypted by the key stream without its first block.
fn append_crypted(
    planes: &KeyPlanes,
    first: [u8; 16],
    turn: &[[u8; 16]; 16],
    text: &[u8],
    out: &mut Vec<u8>,
) -> Result<(), AllocError>
    requires { HasStream (aes256 planes.now) first turn.now }
    ensures ok { OnOk result (out.new.items ≡ out.old.items ++ gctr (aes256 planes.now) (inc32 first) text.now) }
    ensures err { OnErr result (out.new.items ≡ out.old.items) }
{
    let start = out.len();
    out.extend_from_slice(text)?;
    crypt(planes, first, turn, &mut out[start..]);
    Ok(())
}

/// Two lengths in bytes, as the block of their lengths in bits.
fn bit_lengths(a: usize, b: usize) -> [u8; 16]
    ensures { result ≡ to_be_bytes w64 (a * 8 % 2 ^ 64) ++ to_be_bytes w64 (b * 8 % 2 ^ 64) }
{
    let mut block = [0u8; 16];
    block[..8].copy_from_slice(&(a as u64).wrapping_mul(8).to_be_bytes());
    block[8..].copy_from_slice(&(b as u64).wrapping_mul(8).to_be_bytes());
    block
}
