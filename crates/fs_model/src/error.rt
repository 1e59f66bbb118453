// Errors of the tree language.

/// Why a line or a command is refused: the errors 1 to 11, in this order.
#[derive(Clone, Copy, PartialEq, Eq)]
pub enum FsError {
    NoEntry,
    Exists,
    NotDirectory,
    IsDirectory,
    NotEmpty,
    Invalid,
    Busy,
    NameTooLong,
    TooLarge,
    NotLink,
    BadLine,
}
