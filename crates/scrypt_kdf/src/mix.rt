// scryptBlockMix and scryptROMix (RFC 7914, sections 4 and 5). But for ROMix's own input and output,
// the words of each block stand on its diagonals, as Salsa20/8 works on them.

ghost use Rattle.std.specs.Prelude.{◌≡◌, ◌<◌, ◌≤◌, ◌+◌, ◌*◌, ◌%◌, ◌^◌, List, ℕ, OnOk, length, vec_len};
ghost use Rattle.std.specs.Int.{IsPowerOfTwo};
ghost use Rattle.scrypt_kdf.specs.Order.{on_diagonals};
ghost use Rattle.scrypt_kdf.specs.Scrypt.{block_mix, integerify, iterate, iterates, joined, part, ro_mix, turned, xor_bytes};

use crate::order::{FROM_DIAGONALS, MAX_LEN, TO_DIAGONALS, reorder};
use crate::salsa::{core, load, store, xor};
use std::alloc::AllocError;

const BLOCK_LEN: usize = 64;

/// scryptROMix (RFC 7914, section 5) of `x`, 128 * r bytes, in place, over N iterates that it leaves in `v`. The
/// error is want of memory, and then no clause says what `x` holds.
pub fn ro_mix(r: usize, n: usize, x: &mut [u8], v: &mut Vec<u8>) -> Result<(), AllocError>
    requires r_low { 1 ≤ r }
    requires r_high { r ≤ 8 }
    requires power { IsPowerOfTwo n }
    requires n_high { n ≤ 2 ^ 20 }
    requires len { length x.old ≡ 128 * r }
    ensures { OnOk result (x.new ≡ ro_mix r x.old n) }
{
    reorder(x, TO_DIAGONALS);
    fill(r, n, x, v)?;
    look_up(r, n, x, v.as_slice());
    reorder(x, FROM_DIAGONALS);
    Ok(())
}

/// The first loop: `v` becomes the N iterates, joined, and `x` the next one.
fn fill(r: usize, n: usize, x: &mut [u8], v: &mut Vec<u8>) -> Result<(), AllocError>
    requires r_low { 1 ≤ r }
    requires r_high { r ≤ 8 }
    requires n_high { n ≤ 2 ^ 20 }
    requires len { length x.old ≡ 128 * r }
    ensures len { OnOk result (vec_len v.new ≡ 128 * r * n) }
    ensures iterates { OnOk result ((b : List ℕ) → length b ≡ 128 * r → x.old ≡ on_diagonals b
        → v.new.items ≡ joined (λ i. on_diagonals (iterate r b i)) n) }
    ensures next { OnOk result ((b : List ℕ) → length b ≡ 128 * r → x.old ≡ on_diagonals b
        → x.new ≡ on_diagonals (iterate r b n)) }
{
    v.clear();
    for i in 0..n {
        v.extend_from_slice(x)?;
        block_mix(r, part(128 * r, v.as_slice(), i), x);
    }
    Ok(())
}

/// The second loop, over iterates that `v` has joined.
fn look_up(r: usize, n: usize, x: &mut [u8], v: &[u8])
    requires r_low { 1 ≤ r }
    requires r_high { r ≤ 8 }
    requires power { IsPowerOfTwo n }
    requires n_high { n ≤ 2 ^ 20 }
    requires len { length x.old ≡ 128 * r }
    requires room { length v.now ≡ 128 * r * n }
    ensures { (b c : List ℕ) → length b ≡ 128 * r → length c ≡ 128 * r
        → v.now ≡ joined (λ i. on_diagonals (iterate r b i)) n → x.old ≡ on_diagonals c
        → x.new ≡ on_diagonals (turned r n (iterates r n b) c n) }
{
    let len = 128 * r;
    let mut room = [0u8; MAX_LEN];
    let t = &mut room[..len];
    for _turn in 0..n {
        let j = integerify(r, n, x);
        xor_to(t, x, part(len, v, j));
        block_mix(r, t, x);
    }
}

/// Integerify of `x`, modulo N: as N is a power of two up to 2^20, the low four bytes decide, which
/// stand first on the diagonals too.
#[inline(always)]
fn integerify(r: usize, n: usize, x: &[u8]) -> usize
    requires r_low { 1 ≤ r }
    requires r_high { r ≤ 8 }
    requires power { IsPowerOfTwo n }
    requires n_high { n ≤ 2 ^ 20 }
    requires len { length x.now ≡ 128 * r }
    ensures within { result < n }
    ensures value { (b : List ℕ) → length b ≡ 128 * r → x.now ≡ on_diagonals b → result ≡ integerify r b % n }
{
    let last = part(BLOCK_LEN, x, 2 * r - 1);
    let low = u32::from_le_bytes([last[0], last[1], last[2], last[3]]);
    (low & (n as u32 - 1)) as usize
}

/// Makes `t` the bytes of `x` xored with those of `y`.
#[inline(always)]
fn xor_to(t: &mut [u8], x: &[u8], y: &[u8])
    requires first { length t.old ≡ length x.now }
    requires second { length t.old ≡ length y.now }
    ensures { t.new ≡ xor_bytes x.now y.now }
{
    for k in 0..t.len() {
        t[k] = x[k] ^ y[k];
    }
}

/// BlockMix of `b` into `y`, both of 128 * r bytes.
pub(crate) fn block_mix(r: usize, b: &[u8], y: &mut [u8])
    requires r_low { 1 ≤ r }
    requires r_high { r ≤ 8 }
    requires from { length b.now ≡ 128 * r }
    requires to { length y.old ≡ 128 * r }
    ensures { (p : List ℕ) → length p ≡ 128 * r → b.now ≡ on_diagonals p → y.new ≡ on_diagonals (block_mix r p) }
{
    let mut x = load(part(BLOCK_LEN, b, 2 * r - 1));
    for i in 0..r {
        let even = core(xor(x, load(part(BLOCK_LEN, b, 2 * i))));
        let at = BLOCK_LEN * i;
        store(even, &mut y[at..at + BLOCK_LEN]);
        let odd = core(xor(even, load(part(BLOCK_LEN, b, 2 * i + 1))));
        let at = BLOCK_LEN * r + BLOCK_LEN * i;
        store(odd, &mut y[at..at + BLOCK_LEN]);
        x = odd;
    }
}

/// scryptBlockMix (RFC 7914, section 4) of `b` into `y`, both of 128 * r bytes. `b` is left with its words in another
/// order.
pub fn mix_blocks(r: usize, b: &mut [u8], y: &mut [u8])
    requires r_low { 1 ≤ r }
    requires r_high { r ≤ 8 }
    requires from { length b.old ≡ 128 * r }
    requires to { length y.old ≡ 128 * r }
    ensures { y.new ≡ block_mix r b.old }
{
    reorder(b, TO_DIAGONALS);
    block_mix(r, b, y);
    reorder(y, FROM_DIAGONALS);
}

/// Part `i` of `b`, in parts of `len` bytes.
#[inline(always)]
fn part(len: usize, b: &[u8], i: usize) -> &[u8]
    requires { len * i + len ≤ length b.now }
    ensures { result.now ≡ part len b.now i }
{
    &b[len * i..len * i + len]
}
