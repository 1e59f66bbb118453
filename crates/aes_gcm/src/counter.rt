// Counter blocks (SP 800-38D, 6.2 and 6.5).
ghost use Rattle.std.specs.Prelude.{◌≡◌, ℕ, ◌<◌, [], slice_index_or};
ghost use Rattle.aes_gcm.specs.Gctr.{counter_block, inc32};

/// The counter block after this one.
#[inline(always)]
fn inc32(block: [u8; 16]) -> [u8; 16]
    ensures { result ≡ inc32 block }
{
    let count = u32::from_be_bytes([block[12], block[13], block[14], block[15]]);
    let mut next = block;
    next[12..].copy_from_slice(&count.wrapping_add(1).to_be_bytes());
    next
}

/// Sixteen counter blocks in a row, from this one on.
#[inline(always)]
pub(crate) fn sixteen_counters(first: [u8; 16]) -> [[u8; 16]; 16]
    ensures { (j : ℕ) → j < 16 → slice_index_or result j [] ≡ counter_block first j }
{
    let second = inc32(first);
    let third = inc32(second);
    let fourth = inc32(third);
    let fifth = inc32(fourth);
    let sixth = inc32(fifth);
    let seventh = inc32(sixth);
    let eighth = inc32(seventh);
    let ninth = inc32(eighth);
    let tenth = inc32(ninth);
    let eleventh = inc32(tenth);
    let twelfth = inc32(eleventh);
    let thirteenth = inc32(twelfth);
    let fourteenth = inc32(thirteenth);
    let fifteenth = inc32(fourteenth);
    let sixteenth = inc32(fifteenth);
    [
        first, second, third, fourth, fifth, sixth, seventh, eighth, ninth, tenth, eleventh,
        twelfth, thirteenth, fourteenth, fifteenth, sixteenth,
    ]
}

/// The counter block sixteen after this one.
#[inline(always)]
pub(crate) fn sixteen_after(first: [u8; 16]) -> [u8; 16]
    ensures { result ≡ counter_block first 16 }
{
    let counters = sixteen_counters(first);
    inc32(counters[15])
}
