// Fields taken off the front of bytes.
ghost use Rattle.std.specs.Prelude.{◌≡◌, length};
ghost use Rattle.std.specs.Int.{w16, w32, w64, from_le_bytes};
ghost use Rattle.std.specs.Option.{option_map};
ghost use Rattle.byte_fields.specs.Fields.{front_at, number_at};

use block_id::BlockId;

/// The number that the first two bytes are, and the bytes behind them. None where there are fewer.
#[tactic(auto, unfolding(crate::specs::Fields::number_at))]
pub fn take_u16(bytes: &[u8]) -> Option<(u16, &[u8])>
    ensures { option_map (λ x. (x.0, x.1.now)) result ≡ number_at w16 bytes.now }
{
    let (two, rest) = bytes.split_first_chunk::<2>()?;
    Some((u16::from_le_bytes(*two), rest))
}

/// The number that the first four bytes are, and the bytes behind them. None where there are fewer.
#[tactic(auto, unfolding(crate::specs::Fields::number_at))]
pub fn take_u32(bytes: &[u8]) -> Option<(u32, &[u8])>
    ensures { option_map (λ x. (x.0, x.1.now)) result ≡ number_at w32 bytes.now }
{
    let (four, rest) = bytes.split_first_chunk::<4>()?;
    Some((u32::from_le_bytes(*four), rest))
}

/// The number that the first eight bytes are, and the bytes behind them. None where there are fewer.
#[tactic(auto, unfolding(crate::specs::Fields::number_at))]
pub fn take_u64(bytes: &[u8]) -> Option<(u64, &[u8])>
    ensures { option_map (λ x. (x.0, x.1.now)) result ≡ number_at w64 bytes.now }
{
    let (eight, rest) = bytes.split_first_chunk::<8>()?;
    Some((u64::from_le_bytes(*eight), rest))
}

/// The first `N` bytes, and those behind them. None where there are fewer.
#[tactic(auto, unfolding(crate::specs::Fields::front_at))]
pub fn take_array<const N: usize>(bytes: &[u8]) -> Option<([u8; N], &[u8])>
    ensures { option_map (λ x. (x.0, x.1.now)) result ≡ front_at N bytes.now }
{
    let (front, rest) = bytes.split_first_chunk::<N>()?;
    Some((*front, rest))
}

/// The id that the first sixteen bytes are, and the bytes behind them. None where there are fewer.
pub fn take_id(bytes: &[u8]) -> Option<(BlockId, &[u8])>
    ensures { option_map (λ x. (x.0.0, x.1.now)) result ≡ front_at 16 bytes.now }
{
    let (id, rest) = take_array::<16>(bytes)?;
    Some((BlockId(id), rest))
}

/// The first `len` bytes, and those behind them. None where there are fewer.
#[tactic(auto, unfolding(crate::specs::Fields::front_at))]
pub fn take_bytes(bytes: &[u8], len: usize) -> Option<(&[u8], &[u8])>
    ensures { option_map (λ x. (x.0.now, x.1.now)) result ≡ front_at len bytes.now }
{
    if bytes.len() < len {
        return None;
    }
    Some(bytes.split_at(len))
}

/// The number that two bytes are, the low one first.
pub fn u16_of(bytes: &[u8]) -> u16
    requires { length bytes.now ≡ 2 }
    ensures { result ≡ from_le_bytes w16 bytes.now }
{
    let mut two = [0; 2];
    two.copy_from_slice(bytes);
    u16::from_le_bytes(two)
}

/// The number that four bytes are, the lowest first.
pub fn u32_of(bytes: &[u8]) -> u32
    requires { length bytes.now ≡ 4 }
    ensures { result ≡ from_le_bytes w32 bytes.now }
{
    let mut four = [0; 4];
    four.copy_from_slice(bytes);
    u32::from_le_bytes(four)
}

/// The number that eight bytes are, the lowest first.
pub fn u64_of(bytes: &[u8]) -> u64
    requires { length bytes.now ≡ 8 }
    ensures { result ≡ from_le_bytes w64 bytes.now }
{
    let mut eight = [0; 8];
    eight.copy_from_slice(bytes);
    u64::from_le_bytes(eight)
}

/// The id that sixteen bytes are.
pub fn id_of(bytes: &[u8]) -> BlockId
    requires { length bytes.now ≡ 16 }
    ensures { result.0 ≡ bytes.now }
{
    let mut id = [0; 16];
    id.copy_from_slice(bytes);
    BlockId(id)
}
