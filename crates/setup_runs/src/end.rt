// The end of a run beside sessions.
ghost use Rattle.std.specs.Prelude.{◌≡◌, Result};
ghost use Rattle.session_laws.specs.mount.Mounts.{IsReady};
ghost use Rattle.run_status.specs.Statuses.{first_of};
ghost use Rattle.session_laws.specs.Turns.{Closing};
ghost use Rattle.session_laws.specs.record_saver.declared.saver.SyncError.{SyncError};
ghost use Rattle.session_laws.specs.mount_core.Showing.{ShowsFiles};
ghost use Rattle.session_laws.specs.run_frame.Statuses.{closing_status, session_status};

use mount_calls::close;
use outside::{Keeper, Vault};
use run_status::{Ended, Status};
use session_laws::mount::Mount;
use session_laws::run_frame::{closing_status, session_status};
use session_laws::session_lines::End;
use std::alloc::Global;

/// Closes the file system, and ends the run with this status, or where that is Done with that of closing.
pub(crate) fn end_run<V: Vault, K: Keeper>(
    alloc: Global,
    mount: Mount<V, K>,
    status: Status,
) -> Ended<V, K>
    requires ready { IsReady V.trace V.faults K.Keeper mount }
    ensures { (closing : Result Unit SyncError) × (result.status ≡ first_of status (closing_status closing))
        × Closing ShowsFiles V.trace V.faults K.Keeper mount closing result.vault result.keeper }
{
    let (closing, vault, keeper) = close(alloc, mount);
    Ended {
        status: status.or(closing_status(closing)),
        vault,
        keeper,
    }
}

/// Closes the file system, and ends the run as a session whose lines ended so.
pub(crate) fn end_session<V: Vault, K: Keeper>(
    alloc: Global,
    mount: Mount<V, K>,
    end: End,
) -> Ended<V, K>
    requires ready { IsReady V.trace V.faults K.Keeper mount }
    ensures { (closing : Result Unit SyncError) × (result.status ≡ session_status mount.core.violated end closing)
        × Closing ShowsFiles V.trace V.faults K.Keeper mount closing result.vault result.keeper }
{
    let violated = mount.core.violated;
    let (closing, vault, keeper) = close(alloc, mount);
    Ended {
        status: session_status(violated, end, closing),
        vault,
        keeper,
    }
}
