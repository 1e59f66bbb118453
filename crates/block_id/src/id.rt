// The id of a block.
ghost use Rattle.std.specs.Prelude.{◌≡◌, ◌↔◌, length, IsSome};
ghost use Rattle.std.specs.List.{AllPass};
ghost use Rattle.std.specs.Option.{option_map};
ghost use Rattle.hex.specs.Hex.{is_hex_digit};
ghost use Rattle.block_id.specs.Name.{id_in, name_of, next_id};

use hex::FromHex;

const UPPER_DIGITS: [u8; 16] = *b"0123456789ABCDEF";

/// 16 bytes under which a block is kept, ordered by bytes.
#[derive(Clone, Copy, PartialEq, Eq, PartialOrd, Ord, Hash)]
pub struct BlockId(pub [u8; 16]);

impl BlockId {
    /// The name: 32 upper-case hexadecimal digits.
    pub fn to_name(&self) -> [u8; 32]
        ensures { result ≡ name_of self.now.0 }
    {
        let mut name = [0u8; 32];
        'bytes: for i in 0..16 {
            let byte = self.0[i];
            name[2 * i] = UPPER_DIGITS[(byte / 16) as usize];
            name[2 * i + 1] = UPPER_DIGITS[(byte % 16) as usize];
        }
        name
    }

    /// The id with this name, whose digits may be of either case.
    pub fn from_name(text: &[u8]) -> Option<BlockId>
        ensures found { IsSome result ↔ ((length text.now ≡ 32) × AllPass is_hex_digit text.now) }
        ensures value { option_map (λ id. id.0) result ≡ id_in text.now }
    {
        match <[u8; 16] as FromHex>::from_hex(text) {
            Ok(bytes) => Some(BlockId(bytes)),
            Err(_) => None,
        }
    }

    /// One more, modulo 2^128; the first byte is the highest.
    pub fn next(&self) -> BlockId
        ensures { result.0 ≡ next_id self.now.0 }
    {
        BlockId(u128::from_be_bytes(self.0).wrapping_add(1).to_be_bytes())
    }
}
