// Nothing but want of memory keeps a mount's calls from what they do.
ghost use Rattle.program_laws.specs.Calls.{AttachCompletes, SyncCompletes, ChangePasswordCompletes, CloseCompletes, MigrateMountCompletes};

use outside::{Keeper, Vault};

/// Where nothing fails, and for `attach` and `migrate` the directory gives what was last written, each of these calls of a mount
/// that stands for a tree does what it is to do, or finds no memory; or `migrate` finds a block at its last version. `attach`
/// opens what a run left under the password. `answers_complete` says it of an answer.
pub fn calls_complete<V: Vault, K: Keeper>()
    ensures attach { AttachCompletes V.trace V.faults K.Keeper }
    ensures sync { SyncCompletes V.trace V.faults K.Keeper }
    ensures change_password { ChangePasswordCompletes V.trace V.faults K.Keeper }
    ensures close { CloseCompletes V.trace V.faults K.Keeper }
    ensures migrate { MigrateMountCompletes V.trace V.faults K.Keeper }
{}
