// What a sealer does.
ghost use Rattle.std.specs.Prelude.{◌≡◌, ◌≤◌, ◌+◌, ◌++◌, List, [], ℕ, false, length, take, IfOk, OnOk, OnErr};
ghost use Rattle.std.specs.declared.option.Option.{Option};
ghost use Rattle.std.specs.declared.option.Option.TheVariants.{Some};
ghost use Rattle.std.specs.Option.{option_map};
ghost use Rattle.seal_api.specs.Sealing.{IsSealed, max_len, middle, shown};

use block_id::Memory;
use std::alloc::Global;

/// Seals plaintexts under a key of 32 bytes, and opens what was sealed.
pub trait Sealer {
    /// How many bytes an IV has.
    ghost iv_size: { Self → ℕ };

    /// The plaintext that a text opens to under a key with some extra bytes, if it opens.
    ghost opens: { Self → List ℕ → List ℕ → List ℕ → Option (List ℕ) };

    /// The sealed text of a key, an IV, extra bytes and a plaintext.
    ghost sealed: { Self → List ℕ → List ℕ → List ℕ → List ℕ → List ℕ };

    /// How many bytes an IV has.
    fn iv_len(&self) -> usize
        ensures value { result ≡ iv_size self.now }
        ensures bound { result ≤ max_len };

    /// Seals the plaintext that stands between room for an IV and room for the tag, 16 bytes, where it stands: no memory is taken.
    fn seal_in_place(&self, key: &[u8; 32], iv: &[u8], extra: &[u8], text: &mut [u8])
        requires iv { length iv.now ≡ iv_size self.now }
        requires extra { length extra.now ≤ max_len }
        requires room { iv_size self.now + 16 ≤ length text.old }
        requires plain { length (middle (iv_size self.now) 16 text.old) ≤ max_len }
        ensures { text.new ≡ sealed self.now key.now iv.now extra.now (middle (iv_size self.now) 16 text.old) };

    /// Appends the sealed plaintext to `out`: the IV, then what hides and protects the plaintext, and protects the extra bytes,
    /// which aren't in it.
    fn seal_with(
        &self,
        key: &[u8; 32],
        iv: &[u8],
        extra: &[u8],
        plain: &[u8],
        out: &mut Vec<u8>,
    ) -> Result<(), Memory>
        requires iv { length iv.now ≡ iv_size self.now }
        requires extra { length extra.now ≤ max_len }
        requires plain { length plain.now ≤ max_len }
        ensures ok { OnOk result (out.new.items ≡ out.old.items ++ sealed self.now key.now iv.now extra.now plain.now) }
        ensures err { OnErr result (out.new.items ≡ out.old.items) };

    /// The plaintext of a sealed text, or None where it doesn't open under this key with these extra bytes.
    fn unseal_with(
        &self,
        alloc: Global,
        key: &[u8; 32],
        extra: &[u8],
        text: &[u8],
    ) -> Result<Option<Vec<u8>>, Memory>
        ensures { IfOk result (λ answer. option_map (λ plain. plain.items) answer ≡ opens self.now key.now extra.now text.now) };

    /// The first bytes of that plaintext, at most so many, or None where the text doesn't open. The whole text is authenticated, and
    /// no more than the front is decrypted.
    fn unseal_front(
        &self,
        alloc: Global,
        key: &[u8; 32],
        extra: &[u8],
        text: &[u8],
        most: usize,
    ) -> Result<Option<Vec<u8>>, Memory>
        ensures { IfOk result (λ answer. option_map (λ plain. plain.items) answer ≡ option_map (take most) (opens self.now key.now extra.now text.now)) };

    /// Opens a sealed text where it stands, and says whether it opens: no memory is taken. Where it does, the first bytes of the
    /// plaintext, at most so many, stand in the place of the ciphertext's; where it doesn't, nothing is changed.
    fn unseal_in_place(&self, key: &[u8; 32], extra: &[u8], text: &mut [u8], most: usize) -> bool
        ensures opened { shown most result (middle (iv_size self.now) 16 text.new) ≡ option_map (take most) (opens self.now key.now extra.now text.old) }
        ensures refused { result ≡ false → text.new ≡ text.old };

    /// `seal_with` with no extra bytes.
    fn seal(&self, key: &[u8; 32], iv: &[u8], plain: &[u8], out: &mut Vec<u8>) -> Result<(), Memory>
        requires iv { length iv.now ≡ iv_size self.now }
        requires plain { length plain.now ≤ max_len }
        ensures ok { OnOk result (out.new.items ≡ out.old.items ++ sealed self.now key.now iv.now [] plain.now) }
        ensures err { OnErr result (out.new.items ≡ out.old.items) }
    {
        self.seal_with(key, iv, &[], plain, out)
    }

    /// `unseal_with` with no extra bytes.
    fn unseal(&self, alloc: Global, key: &[u8; 32], text: &[u8]) -> Result<Option<Vec<u8>>, Memory>
        ensures { IfOk result (λ answer. option_map (λ plain. plain.items) answer ≡ opens self.now key.now [] text.now) }
    {
        self.unseal_with(alloc, key, &[], text)
    }

    /// What is sealed with an IV of the right length begins with it, and opens to the plaintext under the same key with the
    /// same extra bytes.
    ghost seals: { (s : Self) (key iv extra plain : List ℕ) → length iv ≡ iv_size s → IsSealed (opens s key extra) iv plain (sealed s key iv extra plain) };

    /// A text that opens has 16 bytes more than its IV and its plaintext.
    ghost lengths: { (s : Self) (key extra text plain : List ℕ) → opens s key extra text ≡ Some plain → length text ≡ iv_size s + length plain + 16 };

    /// A text that opens with two extras gives one plaintext.
    ghost agrees: { (s : Self) (key extra other text plain again : List ℕ) → opens s key extra text ≡ Some plain → opens s key other text ≡ Some again → plain ≡ again };
}
