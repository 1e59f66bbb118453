// How large blocks are.

/// Bytes of a block's file at least.
pub const MIN_BLOCK: u32 = 128;

/// Bytes of a block's file at most.
pub const MAX_BLOCK: u32 = 1_048_576;

/// Bytes of a block's payload at least.
pub const MIN_PAYLOAD: u32 = 50;
