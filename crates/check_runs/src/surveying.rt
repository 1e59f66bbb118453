// The survey of an opened file system, from its opening to its closing.
ghost use Rattle.std.specs.Prelude.{◌≡◌, [], true, false, IfOk, IfErr};
ghost use Rattle.setup_runs.specs.mount.Mounts.{IsReady};
ghost use Rattle.setup_runs.specs.mount_stores.declared.error.OpenError.{OpenError};
ghost use Rattle.setup_runs.specs.session_laws.Openings.{HasCauses, IsUnopened};
ghost use Rattle.setup_runs.specs.session_laws.Runs.{outside_of};
ghost use Rattle.check_runs.specs.Surveying.{needs_survey, IsSurveyedRun, Looks, Places, SurveysAll, SurveysIf};

use crate::examining::judge;
use block_id::{Fail, Memory};
use check_blocks::Examined;
use check_refused::cryfs_check::Checked;
use check_refused::{Ungiven, find_paths, survey_blocks};
use outside::{Keeper, Vault};
use run_status::Ended;
use setup_runs::record_saver::SyncError;
use setup_runs::{Mount, close, open};
use std::alloc::Global;

/// What a check found, which blocks aren't given after a flaw, a violation or a fault, whether each was asked for, how the file
/// system was closed, and what it was opened over.
pub struct Survey<V, K> {
    pub verdict: Result<Checked, Fail>,
    pub ungiven: Vec<Ungiven>,
    pub end: Result<(), Memory>,
    pub closing: Result<(), SyncError>,
    pub vault: V,
    pub keeper: K,
}

/// Whether a flaw, a violation or a fault was found, so that each block is to be asked for.
fn needs_survey(verdict: &Result<Checked, Fail>) -> bool
    ensures { result ≡ needs_survey verdict.now }
{
    match verdict {
        Ok(Checked::Yes(_)) | Err(Fail::Memory) => false,
        Ok(Checked::No(_)) | Err(Fail::Violation(_) | Fail::Fault) => true,
    }
}

/// Asks the directory for each live block, and lists those that aren't given.
fn survey_live<V: Vault, K: Keeper>(
    alloc: Global,
    examined: &mut Examined<V, K>,
    ungiven: &mut Vec<Ungiven>,
) -> Result<(), Memory>
    requires ready { IsReady V.trace V.faults K.Keeper examined.old.mount }
    requires none { ungiven.old.items ≡ [] }
    ensures { SurveysAll V.trace V.faults K.Keeper examined.old examined.new ungiven.new.items result }
{
    let live = match examined.live_ids(alloc) {
        Ok(live) => live,
        Err(Memory) => return Err(Memory),
    };
    survey_blocks(alloc, examined, &live, ungiven)
}

/// Gives the blocks that aren't given their paths, as far as these are known.
fn place<V: Vault, K: Keeper>(
    alloc: Global,
    examined: &mut Examined<V, K>,
    ungiven: &mut Vec<Ungiven>,
) -> Result<(), Memory>
    requires { IsReady V.trace V.faults K.Keeper examined.old.mount }
    ensures { Places V.trace V.faults K.Keeper examined.old examined.new ungiven.old.items ungiven.new.items }
{
    let live = match examined.live_ids(alloc) {
        Ok(live) => live,
        Err(Memory) => return Err(Memory),
    };
    let root = examined.mount.core.root;
    find_paths(alloc, examined, &live, &root, ungiven)
}

/// The live blocks that aren't given, with their paths.
fn survey_places<V: Vault, K: Keeper>(
    alloc: Global,
    examined: &mut Examined<V, K>,
    ungiven: &mut Vec<Ungiven>,
) -> Result<(), Memory>
    requires ready { IsReady V.trace V.faults K.Keeper examined.old.mount }
    requires none { ungiven.old.items ≡ [] }
    ensures { SurveysAll V.trace V.faults K.Keeper examined.old examined.new ungiven.new.items result }
{
    match survey_live(alloc, examined, ungiven) {
        Ok(()) => place(alloc, examined, ungiven),
        Err(Memory) => Err(Memory),
    }
}

/// The same where it is needed, and else nothing.
fn survey_if<V: Vault, K: Keeper>(
    needed: bool,
    alloc: Global,
    examined: &mut Examined<V, K>,
    ungiven: &mut Vec<Ungiven>,
) -> Result<(), Memory>
    requires ready { IsReady V.trace V.faults K.Keeper examined.old.mount }
    requires none { ungiven.old.items ≡ [] }
    ensures { SurveysIf V.trace V.faults K.Keeper needed examined.old examined.new ungiven.new.items result }
{
    if needed {
        survey_places(alloc, examined, ungiven)
    } else {
        Ok(())
    }
}

/// Checks an opened file system, asks for each block after a flaw, a violation or a fault, and closes it.
fn survey_mount<V: Vault, K: Keeper>(alloc: Global, mount: Mount<V, K>) -> Survey<V, K>
    requires { IsReady V.trace V.faults K.Keeper mount }
    ensures { Looks V.trace V.faults K.Keeper mount result }
{
    let mut examined = Examined { mount };
    let verdict = judge(alloc, &mut examined);
    let mut ungiven = Vec::new(alloc);
    let end = survey_if(needs_survey(&verdict), alloc, &mut examined, &mut ungiven);
    let Examined { mount } = examined;
    let (closing, vault, keeper) = close(alloc, mount);
    Survey {
        verdict,
        ungiven,
        end,
        closing,
        vault,
        keeper,
    }
}

/// Opens the file system under the password, checks it, asks for each of its blocks after a flaw, a violation or a fault, and
/// closes it; or ends the run where it isn't opened. What is kept is never marked.
pub fn survey_under<V: Vault, K: Keeper>(
    alloc: Global,
    vault: V,
    keeper: K,
    password: &[u8],
) -> Result<Survey<V, K>, Ended<V, K>>
    ensures surveyed { IfOk result (IsSurveyedRun V.trace V.faults K.Keeper password.now vault keeper) }
    ensures unopened { IfErr result (λ ended. (error : OpenError) × IsUnopened V.trace V.faults K.Keeper password.now vault keeper ended error) }
    ensures causes { IfErr result (λ ended. HasCauses (outside_of V.trace V.faults K.Keeper vault keeper) (outside_of V.trace V.faults K.Keeper ended.vault ended.keeper) ended.status) }
{
    match open(alloc, vault, keeper, password) {
        Ok(mount) => Ok(survey_mount(alloc, mount)),
        Err(ended) => Err(ended),
    }
}
