// Sixteen blocks as eight planes, and back.
ghost use Rattle.std.specs.Prelude.{◌≡◌, ◌<◌, ℕ, replicate, slice_index};
ghost use Rattle.std.specs.Int.{bit_at};
ghost use Rattle.aes_block.specs.Planes.{AreVectors, IsVector, blocks_of, half};

use crate::transposition::transpose;
use std::marker::Model;
use std::simd::{u8x16, u8x32};

/// Sixteen blocks side by side: plane k has bit k of each byte. Lane p of a plane has that bit of byte p
/// of each even block, and lane 16 + p of each odd one. Bit j of a lane is that of block 2j or 2j + 1.
#[derive(Drop)]
pub(crate) struct Planes {
    bit0: u8x32,
    bit1: u8x32,
    bit2: u8x32,
    bit3: u8x32,
    bit4: u8x32,
    bit5: u8x32,
    bit6: u8x32,
    bit7: u8x32,
}

impl Model for Planes {
    ghost use Rattle.std.specs.Prelude.{ℕ, List, [], ◌∷◌};
    ghost use Rattle.aes_block.specs.Planes.{AreVectors, blocks_of};

    ghost Value = { List (List ℕ) };

    ghost view = { λ blocks. blocks_of (blocks.bit0 ∷ blocks.bit1 ∷ blocks.bit2 ∷ blocks.bit3 ∷ blocks.bit4 ∷ blocks.bit5 ∷ blocks.bit6 ∷ blocks.bit7 ∷ []) };

    ghost invariant = { λ blocks. AreVectors (blocks.bit0 ∷ blocks.bit1 ∷ blocks.bit2 ∷ blocks.bit3 ∷ blocks.bit4 ∷ blocks.bit5 ∷ blocks.bit6 ∷ blocks.bit7 ∷ []) };
}

impl Planes {
    /// The planes of sixteen blocks.
    #[inline(always)]
    pub(crate) fn new(blocks: &[[u8; 16]; 16]) -> Planes
        ensures { result ≡ blocks.now }
    {
        Planes::from_planes(transpose([
            load(blocks[0], blocks[1]),
            load(blocks[2], blocks[3]),
            load(blocks[4], blocks[5]),
            load(blocks[6], blocks[7]),
            load(blocks[8], blocks[9]),
            load(blocks[10], blocks[11]),
            load(blocks[12], blocks[13]),
            load(blocks[14], blocks[15]),
        ]))
    }

    /// The planes of sixteen times the same block.
    #[inline(always)]
    pub(crate) fn repeated(block: [u8; 16]) -> Planes
        ensures { result ≡ replicate 16 block }
    {
        let bytes = load(block, block);
        Planes::from_planes([
            spread(bytes, 0),
            spread(bytes, 1),
            spread(bytes, 2),
            spread(bytes, 3),
            spread(bytes, 4),
            spread(bytes, 5),
            spread(bytes, 6),
            spread(bytes, 7),
        ])
    }

    /// From planes 0 to 7.
    #[inline(always)]
    pub(crate) fn from_planes(planes: [u8x32; 8]) -> Planes
        requires { AreVectors planes }
        ensures { result ≡ blocks_of planes }
    {
        let [bit0, bit1, bit2, bit3, bit4, bit5, bit6, bit7] = planes;
        Planes {
            bit0,
            bit1,
            bit2,
            bit3,
            bit4,
            bit5,
            bit6,
            bit7,
        }
    }

    /// Planes 0 to 7.
    #[inline(always)]
    pub(crate) fn planes(&self) -> [u8x32; 8]
        ensures vectors { AreVectors result }
        ensures value { self.now ≡ blocks_of result }
    {
        [
            self.bit0, self.bit1, self.bit2, self.bit3, self.bit4, self.bit5, self.bit6, self.bit7,
        ]
    }

    /// The blocks.
    #[inline(always)]
    pub(crate) fn blocks(&self) -> [[u8; 16]; 16]
        ensures { result ≡ self.now }
    {
        let [v0, v1, v2, v3, v4, v5, v6, v7] = transpose(self.planes());
        [
            low(v0),
            high(v0),
            low(v1),
            high(v1),
            low(v2),
            high(v2),
            low(v3),
            high(v3),
            low(v4),
            high(v4),
            low(v5),
            high(v5),
            low(v6),
            high(v6),
            low(v7),
            high(v7),
        ]
    }
}

/// Two blocks, one behind the other.
#[inline(always)]
fn load(low: [u8; 16], high: [u8; 16]) -> u8x32
    ensures vector { IsVector result }
    ensures low { half 0 result ≡ low }
    ensures high { half 1 result ≡ high }
{
    join(u8x16::from_array(low), u8x16::from_array(high))
}

/// Two vectors as the halves of one.
#[inline(always)]
fn join(low: u8x16, high: u8x16) -> u8x32
    ensures vector { IsVector result }
    ensures low { half 0 result ≡ low }
    ensures high { half 1 result ≡ high }
{
    low.shuffle(
        high,
        [
            0, 1, 2, 3, 4, 5, 6, 7, 8, 9, 10, 11, 12, 13, 14, 15, 16, 17, 18, 19, 20, 21, 22, 23,
            24, 25, 26, 27, 28, 29, 30, 31,
        ],
    )
}

/// The first of two blocks.
#[inline(always)]
fn low(v: u8x32) -> [u8; 16]
    ensures { result ≡ half 0 v }
{
    v.extract::<0, 16>().to_array()
}

/// The second of two blocks.
#[inline(always)]
fn high(v: u8x32) -> [u8; 16]
    ensures { result ≡ half 1 v }
{
    v.extract::<16, 16>().to_array()
}

/// In each lane, bit k of that lane at all places.
#[inline(always)]
fn spread(bytes: u8x32, k: u8) -> u8x32
    requires { k < 8 }
    ensures vector { IsVector result }
    ensures bits { (p j : ℕ) → p < 32 → j < 8 → bit_at (slice_index result p) j ≡ bit_at (slice_index bytes p) k }
{
    u8x32::splat(0) - ((bytes >> u8x32::splat(k)) & u8x32::splat(1))
}
