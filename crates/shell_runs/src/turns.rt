// The beginning of a session, and its end.
ghost use Rattle.std.specs.Prelude.{◌≡◌, Result, IfOk, IfErr};
ghost use Rattle.session_laws.specs.block_versions.Standing.{records};
ghost use Rattle.session_laws.specs.mount.Mounts.{IsReady};
ghost use Rattle.session_laws.specs.mount.Sealing.{OpensSealed, view_of};
ghost use Rattle.session_laws.specs.mount_stores.declared.error.OpenError.{OpenError};
ghost use Rattle.session_laws.specs.mount_core.Standing.{IsKeptMarked};
ghost use Rattle.rand_core.specs.Stream.{Stream};
ghost use Rattle.session_laws.specs.run_frame.Statuses.{session_status};
ghost use Rattle.run_status.specs.Statuses.{first_of};
ghost use Rattle.session_laws.specs.Drawing.{DrawsNoNames};
ghost use Rattle.session_laws.specs.Openings.{HasCauses, IsUnopened};
ghost use Rattle.session_laws.specs.Runs.{outside_of};
ghost use Rattle.session_laws.specs.Turns.{Begun, Closing};
ghost use Rattle.session_laws.specs.record_saver.declared.saver.SyncError.{SyncError};
ghost use Rattle.mount_calls.specs.path_layer.Showing.{ShowsFiles};

use mount_calls::attach;
use outside::{Keeper, Vault};
use run_status::{Ended, Status};
use session_laws::mount::{Halted, Mount};
use session_laws::run_frame::{opening_status, session_status};
use session_laws::session_lines::End;
use std::alloc::Global;

/// Opens the file system under the password, or ends the run.
pub fn open<V: Vault, K: Keeper>(
    alloc: Global,
    vault: V,
    keeper: K,
    password: &[u8],
) -> Result<Mount<V, K>, Ended<V, K>>
    ensures begun { IfOk result (λ mount. Begun ShowsFiles V.trace V.faults K.Keeper password.now vault keeper mount) }
    ensures sealed { IfOk result (λ mount. OpensSealed (K.kept keeper) (V.trace vault) (view_of V.trace mount)) }
    ensures unmarked { IfOk result (λ mount. ¬ IsKeptMarked records (K.kept keeper)) }
    ensures unopened { IfErr result (λ ended. (error : OpenError) × IsUnopened V.trace V.faults K.Keeper password.now vault keeper ended error) }
    ensures undrawn { IfErr result (λ ended. (stream : Stream)
        → DrawsNoNames stream stream (outside_of V.trace V.faults K.Keeper vault keeper) (outside_of V.trace V.faults K.Keeper ended.vault ended.keeper)) }
    ensures causes { IfErr result (λ ended. HasCauses (outside_of V.trace V.faults K.Keeper vault keeper) (outside_of V.trace V.faults K.Keeper ended.vault ended.keeper) ended.status) }
{
    match attach(alloc, vault, keeper, password) {
        Ok(mount) => Ok(mount),
        Err(halted) => {
            let Halted {
                error,
                vault,
                keeper,
            } = halted;
            Err(Ended {
                status: opening_status(error),
                vault,
                keeper,
            })
        }
    }
}

/// Closes the file system after a session that ended so, and ends the run: with this status where nothing else is the
/// matter. After a violation nothing is done to close.
pub fn close<V: Vault, K: Keeper>(
    alloc: Global,
    mount: Mount<V, K>,
    end: End,
    own: Status,
) -> Ended<V, K>
    requires ready { IsReady V.trace V.faults K.Keeper mount }
    ensures { (closing : Result Unit SyncError) × (result.status ≡ first_of (session_status mount.core.violated end closing) own)
        × Closing ShowsFiles V.trace V.faults K.Keeper mount closing result.vault result.keeper }
{
    let violated = mount.core.violated;
    let (closing, vault, keeper) = mount_calls::close(alloc, mount);
    Ended {
        status: session_status(violated, end, closing).or(own),
        vault,
        keeper,
    }
}
