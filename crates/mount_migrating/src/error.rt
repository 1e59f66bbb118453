// Why blocks aren't all written anew.
ghost use Rattle.std.specs.Prelude.{◌≡◌};
ghost use Rattle.mount_migrating.specs.Migrating.{error_of_apply, error_of_fail, error_of_sync};

use block_id::{Fail, Why};
use mount_answering::record_saver::SyncError;
use mount_answering::store_api::ApplyError;

/// Why blocks aren't all written anew.
#[derive(Clone, Copy, PartialEq, Eq)]
pub enum MigrateError {
    /// Memory was refused.
    Memory,
    /// A block has its last version.
    Spent,
    /// A call on the block directory failed.
    FaultDirectory,
    /// A save of the record failed.
    FaultState,
    /// The block directory gave something else than what was last written.
    Violation(Why),
}

/// Of a load.
pub(crate) fn load_error(fail: Fail) -> MigrateError
    ensures { result ≡ error_of_fail fail }
{
    match fail {
        Fail::Memory => MigrateError::Memory,
        Fail::Fault => MigrateError::FaultDirectory,
        Fail::Violation(why) => MigrateError::Violation(why),
    }
}

/// Of a batch.
pub(crate) fn apply_error(error: ApplyError) -> MigrateError
    ensures { result ≡ error_of_apply error }
{
    match error {
        ApplyError::Memory => MigrateError::Memory,
        ApplyError::Spent => MigrateError::Spent,
    }
}

/// Of a sync.
pub(crate) fn sync_error(error: SyncError) -> MigrateError
    ensures { result ≡ error_of_sync error }
{
    match error {
        SyncError::Memory => MigrateError::Memory,
        SyncError::FaultDirectory => MigrateError::FaultDirectory,
        SyncError::FaultState => MigrateError::FaultState,
    }
}
