// Planes as vectors of thirty-two lanes: their lanes in other places, and their sums.
ghost use Rattle.std.specs.Prelude.{◌≡◌, map};
ghost use Rattle.aes_block.specs.Circuit.{through, vectors};
ghost use Rattle.aes_block.specs.Planes.{first, next_row, opposite_row, shifted_row, shuffled, sums};
ghost use Rattle.aes_block.specs.SBox.{doubling};

use std::simd::u8x32;

/// Each plane with its lanes where ShiftRows puts them.
#[inline(always)]
pub(crate) fn shifted_rows(a: [u8x32; 8]) -> [u8x32; 8]
    ensures { result ≡ map (shuffled shifted_row) (first 8 a) }
{
    [
        shifted_lanes(a[0]),
        shifted_lanes(a[1]),
        shifted_lanes(a[2]),
        shifted_lanes(a[3]),
        shifted_lanes(a[4]),
        shifted_lanes(a[5]),
        shifted_lanes(a[6]),
        shifted_lanes(a[7]),
    ]
}

/// Each plane with the lanes of the next row.
#[inline(always)]
pub(crate) fn next_rows(a: [u8x32; 8]) -> [u8x32; 8]
    ensures { result ≡ map (shuffled next_row) (first 8 a) }
{
    [
        next_lanes(a[0]),
        next_lanes(a[1]),
        next_lanes(a[2]),
        next_lanes(a[3]),
        next_lanes(a[4]),
        next_lanes(a[5]),
        next_lanes(a[6]),
        next_lanes(a[7]),
    ]
}

/// Each plane with the lanes of the row after the next.
#[inline(always)]
pub(crate) fn opposite_rows(a: [u8x32; 8]) -> [u8x32; 8]
    ensures { result ≡ map (shuffled opposite_row) (first 8 a) }
{
    [
        opposite_lanes(a[0]),
        opposite_lanes(a[1]),
        opposite_lanes(a[2]),
        opposite_lanes(a[3]),
        opposite_lanes(a[4]),
        opposite_lanes(a[5]),
        opposite_lanes(a[6]),
        opposite_lanes(a[7]),
    ]
}

/// The sum of each byte of a and of b.
#[inline(always)]
pub(crate) fn add(a: [u8x32; 8], b: [u8x32; 8]) -> [u8x32; 8]
    ensures { result ≡ sums a b }
{
    [
        a[0] ^ b[0],
        a[1] ^ b[1],
        a[2] ^ b[2],
        a[3] ^ b[3],
        a[4] ^ b[4],
        a[5] ^ b[5],
        a[6] ^ b[6],
        a[7] ^ b[7],
    ]
}

/// Each byte times x.
#[inline(always)]
pub(crate) fn double(a: [u8x32; 8]) -> [u8x32; 8]
    ensures { result ≡ through vectors doubling (first 8 a) }
{
    [
        a[7],
        a[0] ^ a[7],
        a[1],
        a[2] ^ a[7],
        a[3] ^ a[7],
        a[4],
        a[5],
        a[6],
    ]
}

/// At each lane, the lane that ShiftRows puts there.
#[inline(always)]
fn shifted_lanes(a: u8x32) -> u8x32
    ensures { result ≡ shuffled shifted_row a }
{
    a.swizzle([
        0, 5, 10, 15, 4, 9, 14, 3, 8, 13, 2, 7, 12, 1, 6, 11, 16, 21, 26, 31, 20, 25, 30, 19, 24,
        29, 18, 23, 28, 17, 22, 27,
    ])
}

/// At each lane, the lane of the next row.
#[inline(always)]
fn next_lanes(a: u8x32) -> u8x32
    ensures { result ≡ shuffled next_row a }
{
    a.swizzle([
        1, 2, 3, 0, 5, 6, 7, 4, 9, 10, 11, 8, 13, 14, 15, 12, 17, 18, 19, 16, 21, 22, 23, 20, 25,
        26, 27, 24, 29, 30, 31, 28,
    ])
}

/// At each lane, the lane of the row after the next.
#[inline(always)]
fn opposite_lanes(a: u8x32) -> u8x32
    ensures { result ≡ shuffled opposite_row a }
{
    a.swizzle([
        2, 3, 0, 1, 6, 7, 4, 5, 10, 11, 8, 9, 14, 15, 12, 13, 18, 19, 16, 17, 22, 23, 20, 21, 26,
        27, 24, 25, 30, 31, 28, 29,
    ])
}
