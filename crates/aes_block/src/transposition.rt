// Eight vectors, whose lanes are rows of eight bits, as eight columns.
ghost use Rattle.std.specs.Prelude.{◌≡◌, ◌*◌, ◌%◌, ◌^◌, ◌<◌, ℕ};
ghost use Rattle.aes_block.specs.Planes.{AreVectors, IsVector, bit_of};
ghost use Rattle.aes_block.specs.Swaps.{high_places, high_swapped, lane_bits, low_places, low_swapped, mask_bits};

use std::simd::u8x32;

/// Of each lane of eight vectors, bit j of vector k and bit k of vector j change places.
#[inline(always)]
pub(crate) fn transpose(a: [u8x32; 8]) -> [u8x32; 8]
    ensures vectors { AreVectors result }
    ensures bits { (p j k : ℕ) → p < 32 → j < 8 → k < 8 → bit_of result p j k ≡ bit_of a p k j }
{
    let (b0, b1) = swap(a[0], a[1], 1, 0x55);
    let (b2, b3) = swap(a[2], a[3], 1, 0x55);
    let (b4, b5) = swap(a[4], a[5], 1, 0x55);
    let (b6, b7) = swap(a[6], a[7], 1, 0x55);
    let (c0, c2) = swap(b0, b2, 2, 0x33);
    let (c1, c3) = swap(b1, b3, 2, 0x33);
    let (c4, c6) = swap(b4, b6, 2, 0x33);
    let (c5, c7) = swap(b5, b7, 2, 0x33);
    let (d0, d4) = swap(c0, c4, 4, 0x0f);
    let (d1, d5) = swap(c1, c5, 4, 0x0f);
    let (d2, d6) = swap(c2, c6, 4, 0x0f);
    let (d3, d7) = swap(c3, c7, 4, 0x0f);
    [d0, d1, d2, d3, d4, d5, d6, d7]
}

/// Places of a lane are low and high in turn, in groups of so many. The bits of x at high places
/// change places with those of y at the low places below them, which the mask has.
#[inline(always)]
fn swap(x: u8x32, y: u8x32, places: u8, mask: u8) -> (u8x32, u8x32)
    requires places { places < 8 }
    requires low { mask_bits mask ≡ low_places places }
    requires high { mask_bits (mask * 2 ^ places % 256) ≡ high_places places }
    ensures vectors { IsVector result.0 × IsVector result.1 }
    ensures low { (p : ℕ) → p < 32 → lane_bits result.0 p ≡ low_swapped places (lane_bits x p) (lane_bits y p) }
    ensures high { (p : ℕ) → p < 32 → lane_bits result.1 p ≡ high_swapped places (lane_bits x p) (lane_bits y p) }
{
    let shift = u8x32::splat(places);
    let moved = ((x >> shift) ^ y) & u8x32::splat(mask);
    (x ^ (moved << shift), y ^ moved)
}
