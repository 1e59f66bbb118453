// The cipher on a state of sixteen bytes, under an expanded key (FIPS 197, 5.1).
ghost use Rattle.std.specs.Prelude.{◌≡◌, ◌+◌, ◌<◌, bit_xor};
ghost use Rattle.aes_block.specs.Cipher.{add_round_key, cipher, mix_columns, shift_rows, sub_bytes};
ghost use Rattle.aes_block.specs.Field.{times, xtime};

use crate::sbox::sub_byte;

/// The bytes of an expanded key: fifteen round keys of sixteen bytes.
pub(crate) const EXPANDED_LEN: usize = 240;

/// A byte times x.
#[inline(always)]
pub(crate) fn xtime(b: u8) -> u8
    ensures { result ≡ xtime b }
{
    (b << 1) ^ ((b >> 7) * 0x1b)
}

#[inline(always)]
fn sub_bytes(s: [u8; 16]) -> [u8; 16]
    ensures { result ≡ sub_bytes s }
{
    [
        sub_byte(s[0]),
        sub_byte(s[1]),
        sub_byte(s[2]),
        sub_byte(s[3]),
        sub_byte(s[4]),
        sub_byte(s[5]),
        sub_byte(s[6]),
        sub_byte(s[7]),
        sub_byte(s[8]),
        sub_byte(s[9]),
        sub_byte(s[10]),
        sub_byte(s[11]),
        sub_byte(s[12]),
        sub_byte(s[13]),
        sub_byte(s[14]),
        sub_byte(s[15]),
    ]
}

#[inline(always)]
fn shift_rows(s: [u8; 16]) -> [u8; 16]
    ensures { result ≡ shift_rows s }
{
    [
        s[0], s[5], s[10], s[15], s[4], s[9], s[14], s[3], s[8], s[13], s[2], s[7], s[12], s[1],
        s[6], s[11],
    ]
}

/// One byte of MixColumns, with a single doubling: 2a + 3b = 2(a + b) + b.
#[inline(always)]
fn mix_byte(a: u8, b: u8, c: u8, d: u8) -> u8
    ensures { result ≡ bit_xor (bit_xor (bit_xor (times 2 a) (times 3 b)) c) d }
{
    xtime(a ^ b) ^ b ^ c ^ d
}

#[inline(always)]
fn mix_columns(s: [u8; 16]) -> [u8; 16]
    ensures { result ≡ mix_columns s }
{
    [
        mix_byte(s[0], s[1], s[2], s[3]),
        mix_byte(s[1], s[2], s[3], s[0]),
        mix_byte(s[2], s[3], s[0], s[1]),
        mix_byte(s[3], s[0], s[1], s[2]),
        mix_byte(s[4], s[5], s[6], s[7]),
        mix_byte(s[5], s[6], s[7], s[4]),
        mix_byte(s[6], s[7], s[4], s[5]),
        mix_byte(s[7], s[4], s[5], s[6]),
        mix_byte(s[8], s[9], s[10], s[11]),
        mix_byte(s[9], s[10], s[11], s[8]),
        mix_byte(s[10], s[11], s[8], s[9]),
        mix_byte(s[11], s[8], s[9], s[10]),
        mix_byte(s[12], s[13], s[14], s[15]),
        mix_byte(s[13], s[14], s[15], s[12]),
        mix_byte(s[14], s[15], s[12], s[13]),
        mix_byte(s[15], s[12], s[13], s[14]),
    ]
}

#[inline(always)]
fn add_round_key(w: &[u8; EXPANDED_LEN], r: usize, s: [u8; 16]) -> [u8; 16]
    requires { r < 15 }
    ensures { result ≡ add_round_key w.now r s }
{
    let mut out = s;
    for i in 0..16 {
        out[i] = s[i] ^ w[16 * r + i];
    }
    out
}

/// One of the rounds 1 to 13, from the state after round r.
#[inline(always)]
fn round(w: &[u8; EXPANDED_LEN], r: usize, s: [u8; 16]) -> [u8; 16]
    requires { r < 14 }
    ensures { result ≡ add_round_key w.now (r + 1) (mix_columns (shift_rows (sub_bytes s))) }
{
    add_round_key(w, r + 1, mix_columns(shift_rows(sub_bytes(s))))
}

/// The block, encrypted under an expanded key.
pub(crate) fn encrypt_with(w: &[u8; EXPANDED_LEN], block: [u8; 16]) -> [u8; 16]
    ensures { result ≡ cipher w.now block }
{
    let mut s = add_round_key(w, 0, block);
    'rounds: for r in 0..13 {
        let next = round(w, r, s);
        s = next;
    }
    add_round_key(w, 14, shift_rows(sub_bytes(s)))
}
