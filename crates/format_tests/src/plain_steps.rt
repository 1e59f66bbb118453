// Small steps of the plain bodies, restated here since those of `aes_gcm` are private (SP 800-38D, 6 and 7).
ghost use Rattle.std.specs.Prelude.{◌≡◌, ◌≤◌, ◌+◌, ◌*◌, ◌%◌, ◌^◌, ◌<◌, ◌++◌, ℕ, length, slice_index, bit_xor};
ghost use Rattle.std.specs.Int.{w64, to_be_bytes};
ghost use Rattle.aes_gcm.specs.Gctr.{inc32};
ghost use Rattle.aes_gcm.specs.Ghash.{next_v};

/// The bytes of a block.
const BLOCK_LEN: usize = 16;

/// A counter block that counts 1, with room for an IV of twelve bytes.
pub(crate) const FIRST_COUNT: [u8; 16] = [0, 0, 0, 0, 0, 0, 0, 0, 0, 0, 0, 0, 0, 0, 0, 1];

/// The counter block after this one.
pub(crate) fn inc32(block: [u8; 16]) -> [u8; 16]
    ensures { result ≡ inc32 block }
{
    let count = u32::from_be_bytes([block[12], block[13], block[14], block[15]]);
    let mut next = block;
    next[12..].copy_from_slice(&count.wrapping_add(1).to_be_bytes());
    next
}

/// Two lengths in bytes, as the block of their lengths in bits.
pub(crate) fn bit_lengths(a: usize, b: usize) -> [u8; 16]
    ensures { result ≡ to_be_bytes w64 (a * 8 % 2 ^ 64) ++ to_be_bytes w64 (b * 8 % 2 ^ 64) }
{
    let mut block = [0u8; 16];
    block[..8].copy_from_slice(&(a as u64).wrapping_mul(8).to_be_bytes());
    block[8..].copy_from_slice(&(b as u64).wrapping_mul(8).to_be_bytes());
    block
}

/// V shifted right by one bit, reduced.
pub(crate) fn next_v(v: u128) -> u128
    ensures { result ≡ next_v v }
{
    (v >> 1) ^ (v % 2 * (0xe1 << 120))
}

/// Adds a block to the sixteen bytes from `start` on, or to those that there are.
pub(crate) fn add_block(text: &mut [u8], start: usize, block: &[u8; 16])
    requires { start ≤ length text.old }
    ensures inside { (j : ℕ) → j < 16 → start + j < length text.old → slice_index text.new (start + j) ≡ bit_xor (slice_index text.old (start + j)) (slice_index block.now j) }
    ensures before { (k : ℕ) → k < start → slice_index text.new k ≡ slice_index text.old k }
    ensures after { (k : ℕ) → start + 16 ≤ k → slice_index text.new k ≡ slice_index text.old k }
{
    let left = text.len() - start;
    let len = if left < BLOCK_LEN { left } else { BLOCK_LEN };
    'bytes: for j in 0..len {
        text[start + j] ^= block[j];
    }
}
