// How the answer for a block's file is seen.

/// What a directory gave for a block: nothing, a file of another length, one that begins with other bytes, one of a
/// format that isn't taken any more, one whose seal doesn't open, or the plaintext of its record.
#[derive(Drop)]
pub enum Seen {
    Absent,
    BadLength,
    BadPrefix,
    OldFormat,
    NotOpened,
    Plain(Vec<u8>),
}
