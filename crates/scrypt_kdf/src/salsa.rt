// The Salsa20/8 core (RFC 7914, section 3), on the four diagonals of a block of words at a time.

ghost use Rattle.std.specs.Prelude.{◌≡◌, ◌+◌, ◌*◌, ◌<◌, ℕ, List, ◌++◌, length, take};
ghost use Rattle.scrypt_kdf.specs.Order.{on_diagonals};
ghost use Rattle.scrypt_kdf.specs.Rows.{diagonals, lane_sums, lanes, mixed_lanes, quarters, turned_lanes};
ghost use Rattle.scrypt_kdf.specs.Salsa.{bytes_of, core, double_round, salsa20_8, word_at};
ghost use Rattle.scrypt_kdf.specs.Scrypt.{xor_bytes};

use crate::order::{FROM_DIAGONALS, TO_DIAGONALS, reorder};
use std::simd::{u8x16, u32x4};

/// The bytes of a block.
pub(crate) type Block = [u8x16; 4];

/// The words of a block, a diagonal in each vector: a round works on them lane by lane.
type Rows = [u32x4; 4];

/// The Salsa20/8 core of a block of sixteen words, each low byte first (RFC 7914, section 3).
pub fn salsa20_8(block: &[u8; 64]) -> [u8; 64]
    ensures { result ≡ salsa20_8 block.now }
{
    let mut x = *block;
    reorder(&mut x, TO_DIAGONALS);
    let y = core(load(&x));
    store(y, &mut x);
    reorder(&mut x, FROM_DIAGONALS);
    x
}

#[inline(always)]
pub(crate) fn load(block: &[u8]) -> Block
    requires { length block.now ≡ 64 }
    ensures { result ≡ quarters block.now }
{
    [
        u8x16::from_slice(block),
        u8x16::from_slice(&block[16..]),
        u8x16::from_slice(&block[32..]),
        u8x16::from_slice(&block[48..]),
    ]
}

#[inline(always)]
pub(crate) fn store(x: Block, block: &mut [u8])
    requires { length block.old ≡ 64 }
    ensures { (b : List ℕ) → length b ≡ 64 → x ≡ quarters b → block.new ≡ b }
{
    let [p, q, r, s] = x;
    put(p, 0, block);
    put(q, 1, block);
    put(r, 2, block);
    put(s, 3, block);
}

/// Writes vector `i` of a block.
#[inline(always)]
fn put(x: u8x16, i: usize, block: &mut [u8])
    requires len { length block.old ≡ 64 }
    requires place { i < 4 }
    ensures { take (16 * i + 16) block.new ≡ take (16 * i) block.old ++ x }
{
    x.copy_to_slice(&mut block[16 * i..]);
}

#[inline(always)]
pub(crate) fn xor(x: Block, y: Block) -> Block
    ensures { (b c : List ℕ) → length b ≡ 64 → length c ≡ 64 → x ≡ quarters b → y ≡ quarters c
        → result ≡ quarters (xor_bytes b c) }
{
    let [a, b, c, d] = x;
    let [e, f, g, h] = y;
    [a ^ e, b ^ f, c ^ g, d ^ h]
}

/// The core of a block whose words stand on its diagonals.
#[inline(always)]
pub(crate) fn core(x: Block) -> Block
    ensures { (b : List ℕ) → length b ≡ 64 → x ≡ quarters (on_diagonals b)
        → result ≡ quarters (on_diagonals (salsa20_8 b)) }
{
    let [p, q, r, s] = x;
    let [a, b, c, d] = core_words([words(p), words(q), words(r), words(s)]);
    [bytes(a), bytes(b), bytes(c), bytes(d)]
}

#[inline(always)]
fn words(x: u8x16) -> u32x4
    ensures { result ≡ lanes (word_at x) }
{
    u32x4::from_le_bytes(x)
}

#[inline(always)]
fn bytes(x: u32x4) -> u8x16
    ensures { result ≡ bytes_of x }
{
    x.to_le_bytes()
}

#[inline(always)]
fn core_words(x: Rows) -> Rows
    ensures { (w : List ℕ) → length w ≡ 16 → x ≡ diagonals w → result ≡ diagonals (core w) }
{
    let [a, b, c, d] = x;
    let [e, f, g, h] = double_round(double_round(double_round(double_round(x))));
    [sum(e, a), sum(f, b), sum(g, c), sum(h, d)]
}

/// A round on the columns, and one on the rows, whose words stand in the lanes of the same diagonals,
/// turned.
#[inline(always)]
fn double_round(x: Rows) -> Rows
    ensures { (w : List ℕ) → length w ≡ 16 → x ≡ diagonals w → result ≡ diagonals (double_round w) }
{
    let [a, b, c, d] = x;
    let b = mixed(b, a, d, 7);
    let c = mixed(c, b, a, 9);
    let d = mixed(d, c, b, 13);
    let a = mixed(a, d, c, 18);
    let d = turned_1(d);
    let c = turned_2(c);
    let b = turned_3(b);
    let d = mixed(d, a, b, 7);
    let c = mixed(c, d, a, 9);
    let b = mixed(b, c, d, 13);
    let a = mixed(a, b, c, 18);
    [a, turned_1(b), turned_2(c), turned_3(d)]
}

/// b ^ R(a + d, n) in each lane.
#[inline(always)]
fn mixed(b: u32x4, a: u32x4, d: u32x4, n: u32) -> u32x4
    requires low { 0 < n }
    requires high { n < 32 }
    ensures { result ≡ mixed_lanes n b a d }
{
    let sum = a + d;
    b ^ ((sum << u32x4::splat(n)) | (sum >> u32x4::splat(32 - n)))
}

#[inline(always)]
fn sum(x: u32x4, y: u32x4) -> u32x4
    ensures { result ≡ lane_sums x y }
{
    x + y
}

#[inline(always)]
fn turned_1(x: u32x4) -> u32x4
    ensures { result ≡ turned_lanes 1 x }
{
    x.swizzle([1, 2, 3, 0])
}

#[inline(always)]
fn turned_2(x: u32x4) -> u32x4
    ensures { result ≡ turned_lanes 2 x }
{
    x.swizzle([2, 3, 0, 1])
}

#[inline(always)]
fn turned_3(x: u32x4) -> u32x4
    ensures { result ≡ turned_lanes 3 x }
{
    x.swizzle([3, 0, 1, 2])
}
