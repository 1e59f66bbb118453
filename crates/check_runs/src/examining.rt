// The check of an opened file system, from its opening to its closing.
ghost use Rattle.std.specs.Prelude.{◌≡◌, IfOk, IfErr};
ghost use Rattle.setup_runs.specs.mount.Mounts.{IsReady};
ghost use Rattle.setup_runs.specs.mount_stores.declared.error.OpenError.{OpenError};
ghost use Rattle.setup_runs.specs.session_laws.Openings.{HasCauses, IsUnopened};
ghost use Rattle.setup_runs.specs.session_laws.Runs.{outside_of};
ghost use Rattle.check_runs.specs.Judging.{is_bad, Judges, Settles};
ghost use Rattle.check_runs.specs.Examining.{Examines, IsExamined};

use block_id::{Fail, Memory};
use check_blocks::Examined;
use check_refused::cryfs_check::{Checked, check};
use outside::{Keeper, Vault};
use run_status::Ended;
use setup_runs::record_saver::SyncError;
use setup_runs::{Mount, close, condemn, open};
use std::alloc::Global;

/// What a check found, how the file system was closed, and what it was opened over.
pub struct Examination<V, K> {
    pub verdict: Result<Checked, Fail>,
    pub closing: Result<(), SyncError>,
    pub vault: V,
    pub keeper: K,
}

/// Whether a flaw or a violation was found.
pub fn is_bad(verdict: &Result<Checked, Fail>) -> bool
    ensures { result ≡ is_bad verdict.now }
{
    match verdict {
        Ok(Checked::Yes(_)) | Err(Fail::Memory | Fail::Fault) => false,
        Ok(Checked::No(_)) | Err(Fail::Violation(_)) => true,
    }
}

/// Loads each live block from the directory, and judges what they hold.
pub(crate) fn judge<V: Vault, K: Keeper>(
    alloc: Global,
    examined: &mut Examined<V, K>,
) -> Result<Checked, Fail>
    requires { IsReady V.trace V.faults K.Keeper examined.old.mount }
    ensures { Judges V.trace V.faults K.Keeper examined.old examined.new result }
{
    let live = match examined.live_ids(alloc) {
        Ok(live) => live,
        Err(Memory) => return Err(Fail::Memory),
    };
    let root = examined.mount.core.root;
    check(alloc, examined, &live, &root)
}

/// Condemns the mount where this is so.
fn condemn_if<V: Vault, K: Keeper>(bad: bool, mount: &mut Mount<V, K>)
    requires { IsReady V.trace V.faults K.Keeper mount.old }
    ensures ready { IsReady V.trace V.faults K.Keeper mount.new }
    ensures settles { Settles V.trace V.faults K.Keeper bad mount.old mount.new }
{
    if bad {
        condemn(mount);
    }
}

/// Checks an opened file system, condemns it after a flaw or a violation, and closes it.
fn examine_mount<V: Vault, K: Keeper>(alloc: Global, mount: Mount<V, K>) -> Examination<V, K>
    requires { IsReady V.trace V.faults K.Keeper mount }
    ensures { Examines V.trace V.faults K.Keeper mount result }
{
    let mut examined = Examined { mount };
    let verdict = judge(alloc, &mut examined);
    let Examined { mount } = examined;
    let mut mount = mount;
    condemn_if(is_bad(&verdict), &mut mount);
    let (closing, vault, keeper) = close(alloc, mount);
    Examination {
        verdict,
        closing,
        vault,
        keeper,
    }
}

/// Opens the file system under the password, checks it and closes it, or ends the run where it isn't opened. After a flaw or
/// a violation what is kept is marked; else nothing is changed.
pub fn examine<V: Vault, K: Keeper>(
    alloc: Global,
    vault: V,
    keeper: K,
    password: &[u8],
) -> Result<Examination<V, K>, Ended<V, K>>
    ensures examined { IfOk result (IsExamined V.trace V.faults K.Keeper password.now vault keeper) }
    ensures unopened { IfErr result (λ ended. (error : OpenError) × IsUnopened V.trace V.faults K.Keeper password.now vault keeper ended error) }
    ensures causes { IfErr result (λ ended. HasCauses (outside_of V.trace V.faults K.Keeper vault keeper) (outside_of V.trace V.faults K.Keeper ended.vault ended.keeper) ended.status) }
{
    match open(alloc, vault, keeper, password) {
        Ok(mount) => Ok(examine_mount(alloc, mount)),
        Err(ended) => Err(ended),
    }
}
