// The limits of the tree language.

/// Nanoseconds of a moment stay below this.
pub const NANOS_PER_SEC: u32 = 1_000_000_000;

/// Bytes of a name.
pub const MAX_NAME: usize = 255;

/// Bytes of the text of a path.
pub const MAX_PATH_TEXT: usize = 4_096;

/// Bytes of a link's target.
pub const MAX_TARGET: usize = 4_095;

/// The greatest mode, 7777 octal.
pub const MAX_MODE: u32 = 0o7777;

/// Bytes of a file.
pub const MAX_FILE: u64 = 68_719_476_736;

/// Bytes by which one command lets a file grow.
pub const MAX_GROWTH: u64 = 67_108_864;

/// Bytes of a directory's entry beside its name.
pub const ENTRY_SIZE: u64 = 66;

/// Bytes that the entries of a directory take.
pub const MAX_ENTRIES: u64 = 67_108_864;

/// Bytes asked for by one read.
pub const MAX_READ: u64 = 1_048_576;
