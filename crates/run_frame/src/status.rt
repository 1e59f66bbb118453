// Errors as statuses.
ghost use Rattle.std.specs.Prelude.{◌≡◌};
ghost use Rattle.run_frame.specs.Statuses.{opening_status, closing_status, session_status};

use mount_stores::OpenError;
use mount_stores::config_file::ConfigError;
use mount_stores::record_saver::SyncError;
use run_status::Status;
use session_lines::End;

/// The status of a file system that wasn't opened or made. A record that is marked, or is of another file system, is a
/// violation.
pub fn opening_status(error: OpenError) -> Status
    ensures { result ≡ opening_status error }
{
    match error {
        OpenError::Memory | OpenError::Config(ConfigError::Memory) => Status::Memory,
        OpenError::NoState => Status::NoState,
        OpenError::BadState => Status::BadState,
        OpenError::Exists => Status::Exists,
        OpenError::Marked | OpenError::Mismatch { .. } => Status::Violation,
        OpenError::NoConfig => Status::NoConfig,
        OpenError::Config(ConfigError::Form) => Status::ConfigForm,
        OpenError::Config(ConfigError::Locked) => Status::ConfigLocked,
        OpenError::Config(ConfigError::Inner) => Status::ConfigInner,
        OpenError::FaultDirectory => Status::DirectoryFault,
        OpenError::FaultState => Status::StateFault,
    }
}

/// The status of a file system that was synced or closed so.
pub fn closing_status(closing: Result<(), SyncError>) -> Status
    ensures { result ≡ closing_status closing }
{
    match closing {
        Ok(()) => Status::Done,
        Err(SyncError::Memory) => Status::Memory,
        Err(SyncError::FaultDirectory) => Status::DirectoryFault,
        Err(SyncError::FaultState) => Status::StateFault,
    }
}

/// The status of a session: a violation goes first, then how the lines ended, then how closing did.
pub fn session_status(violated: bool, end: End, closing: Result<(), SyncError>) -> Status
    ensures { result ≡ session_status violated end closing }
{
    if violated {
        return Status::Violation;
    }
    match end {
        End::OutputFault => Status::OutputFault,
        End::InputFault => Status::InputFault,
        End::Finished => closing_status(closing),
    }
}
