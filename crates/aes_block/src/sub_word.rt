// Ways to substitute the bytes of a word (FIPS 197, 5.2).
ghost use Rattle.std.specs.Prelude.{◌≡◌};
ghost use Rattle.aes_block.specs.KeyExpansion.{sub_word};

use crate::sbox::sub_byte;

/// A way to substitute the bytes of a word.
pub trait SubWord {
    /// The word with each byte replaced by the S-box's.
    fn sub_word(&self, word: [u8; 4]) -> [u8; 4]
        ensures { result ≡ sub_word word };
}

/// By a table, at the places that the bytes say.
pub(crate) struct ByTable;

impl SubWord for ByTable {
    fn sub_word(&self, word: [u8; 4]) -> [u8; 4] {
        [
            sub_byte(word[0]),
            sub_byte(word[1]),
            sub_byte(word[2]),
            sub_byte(word[3]),
        ]
    }
}
