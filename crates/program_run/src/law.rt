// What a call of `run` is to those after it.
ghost use Rattle.program_run.specs.Formats.{EachLeavesNewest, EveryListKeepsNewest};
ghost use Rattle.program_run.specs.Lists.{OneRun, EveryListOfRuns, EveryListFromCreate};

use cryfs_shell::session_laws::runs_compose;
use outside::{Keeper, Listing, Vault};

/// Each call of `run` whose words open a file system is a run under the password in its input's first line: a session with its
/// exchanges, or one of no lines. Any other call leaves what is kept and the calls on the directory, `create` where something is kept.
pub fn one_run<V: Vault + Listing, K: Keeper>()
    ensures { OneRun V.trace V.faults V.names K.Keeper }
{}

/// Whatever the block directory returns, loses or refuses in any list of calls of `run`: there are trees so that each run that opens
/// the file system answers as a session of the plain tree from the tree that the one before it left, which is that of a kept
/// point of its own session; or, once there was a violation, it is refused. The premise is that nothing that opens was forged.
pub fn every_list_of_runs<V: Vault + Listing, K: Keeper>()
    ensures all { EveryListOfRuns V.trace V.faults V.names K.Keeper }
    ensures from_create { EveryListFromCreate V.trace V.faults V.names K.Keeper }
{
    runs_compose()
}

/// After a `create` that ended with Done, and a `migrate` that told how many blocks there are, the record that is kept takes
/// block files of the newest format alone. It does so, or is marked, after any list of calls of `run` from there on, whatever
/// they met.
pub fn newest_stays<V: Vault + Listing, K: Keeper>()
    ensures begins { EachLeavesNewest V.trace V.faults V.names K.Keeper }
    ensures stays { EveryListKeepsNewest V.trace V.faults V.names K.Keeper }
{}
