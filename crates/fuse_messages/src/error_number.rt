// Why a request is refused.
ghost use Rattle.std.specs.Prelude.{◌≡◌, ◌<◌};
ghost use Rattle.fuse_messages.specs.Numbers.{number_of};

use block_id::Memory;

/// Why a request is refused, as the kernel numbers it.
#[derive(Clone, Copy, PartialEq, Eq)]
pub enum ErrorNumber {
    NotPermitted,
    NoEntry,
    Io,
    BadHandle,
    NoMemory,
    Busy,
    Exists,
    NotDirectory,
    IsDirectory,
    Invalid,
    TooLarge,
    NameTooLong,
    NotImplemented,
    NotEmpty,
    BadMessage,
    Stale,
}

impl ErrorNumber {
    /// The number.
    pub fn number(&self) -> u32
        ensures value { result ≡ number_of self.now }
        ensures above { 0 < result }
        ensures below { result < 4096 }
    {
        match self {
            ErrorNumber::NotPermitted => 1,
            ErrorNumber::NoEntry => 2,
            ErrorNumber::Io => 5,
            ErrorNumber::BadHandle => 9,
            ErrorNumber::NoMemory => 12,
            ErrorNumber::Busy => 16,
            ErrorNumber::Exists => 17,
            ErrorNumber::NotDirectory => 20,
            ErrorNumber::IsDirectory => 21,
            ErrorNumber::Invalid => 22,
            ErrorNumber::TooLarge => 27,
            ErrorNumber::NameTooLong => 36,
            ErrorNumber::NotImplemented => 38,
            ErrorNumber::NotEmpty => 39,
            ErrorNumber::BadMessage => 74,
            ErrorNumber::Stale => 116,
        }
    }
}

impl From<Memory> for ErrorNumber {
    fn from(_: Memory) -> Self {
        ErrorNumber::NoMemory
    }
}
