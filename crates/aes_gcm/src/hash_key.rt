// GHASH (SP 800-38D, 6.3 and 6.4), by tables of the multiples of the hash subkey.
ghost use Rattle.std.specs.Prelude.{◌≡◌, ◌≤◌, ℕ, ◌+◌, ◌*◌, ◌/◌, ◌<◌, length, map, slice_index};
ghost use Rattle.std.specs.List.{range_with_len};
ghost use Rattle.aes_gcm.specs.Gcm.{padded};
ghost use Rattle.aes_gcm.specs.Ghash.{block_at, hashed, next_v, times};
ghost use Rattle.aes_gcm.specs.Tables.{AreTables, entry};

use std::marker::Model;
use std::simd::u8x16;

/// Row p has the multiples of a subkey by the sixteen nibbles at place p of a block, from the left.
type Tables = [[u128; 16]; 32];

/// A hash subkey, ready to multiply blocks.
#[derive(Drop)]
pub(crate) struct HashKey {
    subkey: u128,
    tables: Tables,
}

impl Model for HashKey {
    ghost use Rattle.std.specs.Prelude.{ℕ};
    ghost use Rattle.aes_gcm.specs.Tables.{AreTables};

    ghost Value = { ℕ };

    ghost view = { λ key. key.subkey };

    ghost invariant = { λ key. AreTables key.subkey key.tables };
}

impl HashKey {
    /// The hash subkey 0, whose multiples are 0.
    #[inline(always)]
    pub(crate) fn zero() -> HashKey
        ensures { result ≡ 0 }
    {
        HashKey {
            subkey: 0,
            tables: [[0; 16]; 32],
        }
    }

    /// Takes another hash subkey. The tables are made in place, since moving them costs as much.
    #[inline(always)]
    pub(crate) fn set(&mut self, subkey: u128)
        ensures { self.new ≡ subkey }
    {
        self.subkey = subkey;
        make_tables(&mut self.tables, subkey);
    }

    /// The product of a block and the subkey.
    #[inline(always)]
    fn times(&self, x: u128) -> u128
        ensures { result ≡ times x self.now }
    {
        times_by(&self.tables, x)
    }

    /// Goes on from `y` by some bytes, which are padded with zeros to whole blocks.
    pub(crate) fn absorb(&self, y: u128, bytes: &[u8]) -> u128
        ensures { result ≡ hashed self.now y (padded bytes.now) (length (padded bytes.now) / 16) }
    {
        let mut hash = y;
        let count = bytes.len().div_ceil(16);
        'turns: for i in 0..count {
            let sum = hash ^ load(bytes, i);
            hash = self.times(sum);
        }
        hash
    }
}

/// Block i of some bytes, with zeros past their end.
#[inline(always)]
fn load(bytes: &[u8], i: usize) -> u128
    requires { 16 * i < length bytes.now }
    ensures { result ≡ block_at (padded bytes.now) i }
{
    if 16 <= bytes.len() - 16 * i {
        load_whole(bytes, i)
    } else {
        load_part(bytes, i)
    }
}

/// Block i of some bytes.
#[inline(always)]
fn load_whole(bytes: &[u8], i: usize) -> u128
    requires { 16 * i + 16 ≤ length bytes.now }
    ensures { result ≡ block_at (padded bytes.now) i }
{
    u128::from_be_bytes(u8x16::from_slice(&bytes[16 * i..]).to_array())
}

/// The last block of some bytes, with zeros past their end.
fn load_part(bytes: &[u8], i: usize) -> u128
    requires { 16 * i < length bytes.now }
    ensures { result ≡ block_at (padded bytes.now) i }
{
    u128::from_be_bytes(block_of(bytes, i))
}

/// The bytes of that block.
#[inline(always)]
fn block_of(bytes: &[u8], i: usize) -> [u8; 16]
    requires { 16 * i < length bytes.now }
    ensures { (j : ℕ) → j < 16 → slice_index result j ≡ slice_index bytes.now (16 * i + j) }
{
    let start = 16 * i;
    let len = (bytes.len() - start).min(16);
    let mut block = [0u8; 16];
    block[..len].copy_from_slice(&bytes[start..start + len]);
    block
}

/// V shifted right by one bit, reduced.
#[inline(always)]
fn next_v(v: u128) -> u128
    ensures { result ≡ next_v v }
{
    (v >> 1) ^ (v % 2 * (0xe1 << 120))
}

/// The sixteen multiples of a V, for a nibble that begins at its bit.
#[inline(always)]
fn row(v: u128) -> [u128; 16]
    ensures { result ≡ map (entry v) (range_with_len 0 16) }
{
    let v1 = next_v(v);
    let v2 = next_v(v1);
    let v3 = next_v(v2);
    [
        0,
        v3,
        v2,
        v2 ^ v3,
        v1,
        v1 ^ v3,
        v1 ^ v2,
        v1 ^ v2 ^ v3,
        v,
        v ^ v3,
        v ^ v2,
        v ^ v2 ^ v3,
        v ^ v1,
        v ^ v1 ^ v3,
        v ^ v1 ^ v2,
        v ^ v1 ^ v2 ^ v3,
    ]
}

/// The tables of the subkey h.
#[inline(always)]
fn make_tables(t: &mut Tables, h: u128)
    ensures { AreTables h t.new }
{
    let mut v = h;
    'rows: for p in 0..32 {
        let r = row(v);
        t[p] = r;
        let v2 = next_v(next_v(v));
        v = next_v(next_v(v2));
    }
}

/// The product of a block and the subkey of the tables.
#[inline(always)]
fn times_by(t: &Tables, x: u128) -> u128
    ensures { (h : ℕ) → AreTables h t.now → result ≡ times x h }
{
    let bytes = x.to_be_bytes();
    let mut z: u128 = 0;
    'bytes: for p in 0..16 {
        let b = bytes[p];
        z = z ^ t[2 * p][(b / 16) as usize] ^ t[2 * p + 1][(b % 16) as usize];
    }
    z
}
