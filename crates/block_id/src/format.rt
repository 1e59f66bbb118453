// The formats of block files.

/// The formats of block files, by what the seal protects beside the record.
#[derive(Clone, Copy, PartialEq, Eq)]
pub enum Format {
    /// Format 1: nothing.
    Alone,
    /// Format 2: the block's id.
    WithId,
}
