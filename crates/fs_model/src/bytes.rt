// Bytes of a file or of a link's target.
ghost use Rattle.std.specs.Prelude.{◌≡◌};

use std::marker::Model;

/// A list of bytes.
#[derive(Drop)]
pub struct ByteText {
    bytes: Vec<u8>,
}

impl Model for ByteText {
    ghost use Rattle.std.specs.Prelude.{List, ℕ};

    ghost Value = { List ℕ };

    ghost view = { λ t. t.bytes.items };
}

impl ByteText {
    /// These bytes.
    pub fn new(bytes: Vec<u8>) -> ByteText
        ensures { result ≡ bytes.items }
    {
        ByteText { bytes }
    }

    /// The bytes.
    pub fn as_slice(&self) -> &[u8]
        ensures { result.now ≡ self.now }
    {
        self.bytes.as_slice()
    }
}
