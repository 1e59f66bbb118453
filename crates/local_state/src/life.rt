// The life of one id.

/// The version that was last written under an id, from 1, and whether the block still lives.
#[derive(Clone, Copy, PartialEq, Eq, PartialOrd, Ord)]
pub struct Life {
    pub version: u64,
    pub live: bool,
}
