// Why a file system isn't opened or made.
ghost use Rattle.std.specs.Prelude.{◌≡◌};
ghost use Rattle.mount_stores.specs.Opening.{error_of};

use block_id::BlockId;
use config_file::ConfigError;
use record_saver::SyncError;

/// Why a file system isn't opened or made.
#[derive(Clone, Copy)]
pub enum OpenError {
    Memory,
    /// Nothing is kept.
    NoState,
    /// What is kept is no record.
    BadState,
    /// There is a file system already.
    Exists,
    /// A violation is marked.
    Marked,
    /// The record is of another file system, or of another key.
    Mismatch { kept: BlockId, found: BlockId },
    NoConfig,
    Config(ConfigError),
    FaultDirectory,
    FaultState,
}

/// The same error of an opening.
pub fn open_error(error: SyncError) -> OpenError
    ensures { result ≡ error_of error }
{
    match error {
        SyncError::Memory => OpenError::Memory,
        SyncError::FaultDirectory => OpenError::FaultDirectory,
        SyncError::FaultState => OpenError::FaultState,
    }
}
