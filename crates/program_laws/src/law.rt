// Nothing but want of memory keeps a run from its end.
ghost use Rattle.std.specs.Prelude.{ℕ, List, Option};
ghost use Rattle.copy_file.specs.copy_sessions.Coming.{ComesImport, ComesExport};
ghost use Rattle.copy_file.specs.Coming.{ComesPut, ComesGet};
ghost use Rattle.copy_file.specs.host_folder.Folders.{HostPath, HostTree};
ghost use Rattle.fs_model.specs.Instant.{Instant};
ghost use Rattle.shell_runs.specs.Sessions.{ComesShell, ComesGenerated, ComesCommand};
ghost use Rattle.program_laws.specs.Checks.{CheckCompletes};
ghost use Rattle.program_laws.specs.Migrations.{MigrateCompletes};
ghost use Rattle.program_laws.specs.Mounts.{AnswersComplete};
ghost use Rattle.program_laws.specs.Premises.{RestIsUntroubled, LeftIsFound};
ghost use Rattle.program_laws.specs.Sessions.{SessionsComplete};
ghost use Rattle.program_laws.specs.Setups.{InfoCompletes, PasswdCompletes, CreateCompletes};

use outside::{Keeper, Listing, Vault};

/// The premises of the laws below can be met: where nothing was read, written or called nothing is troubled, and what `create` or
/// another run leaves under a password is what a session finds whose input begins with it.
pub fn premises_are_met()
    ensures rest { RestIsUntroubled }
    ensures left { LeftIsFound }
{}

/// Over a directory that gives what was last written, where nothing fails, a session that stands for a tree and whose password
/// opens the configuration answers every line as the plain tree does, and leaves its last tree; or it finds no memory. Of a copy
/// this is said of what it asks, whatever folder it is beside.
pub fn sessions_complete<V: Vault, K: Keeper>()
    ensures shell { (now : Instant) → SessionsComplete V.trace V.faults K.Keeper (ComesShell now) }
    ensures generate { (now : Instant) (count : ℕ) → SessionsComplete V.trace V.faults K.Keeper (ComesGenerated now count) }
    ensures command { (now : Instant) (line : List ℕ) → SessionsComplete V.trace V.faults K.Keeper (ComesCommand now line) }
    ensures import { (now : Instant) (folder : Option HostTree) (faults risen : ℕ) (target : HostPath)
        → SessionsComplete V.trace V.faults K.Keeper (ComesImport now folder faults risen target) }
    ensures export { (now : Instant) (before after : Option HostTree) (faults risen : ℕ) (source : HostPath)
        → SessionsComplete V.trace V.faults K.Keeper (ComesExport now before after faults risen source) }
    ensures put { (now : Instant) (path : HostPath) → SessionsComplete V.trace V.faults K.Keeper (ComesPut now path) }
    ensures get { (now : Instant) (path : HostPath) → SessionsComplete V.trace V.faults K.Keeper (ComesGet now path) }
{}

/// The same of the runs beside sessions: `info` tells the configuration, `passwd` changes the password, and `create`, where
/// nothing is there, makes the empty tree; or each finds no memory.
pub fn setups_complete<V: Vault, K: Keeper>()
    ensures info { InfoCompletes V.trace V.faults K.Keeper }
    ensures passwd { PasswdCompletes V.trace V.faults K.Keeper }
    ensures create { CreateCompletes V.trace V.faults K.Keeper }
{}

/// The same of `check`: it tells which path owns each block, and the strangers among the directory's names; or it finds no
/// memory. It never finds anything wrong.
pub fn checks_complete<V: Vault + Listing, K: Keeper>()
    ensures { CheckCompletes V.trace V.faults V.names K.Keeper }
{}

/// The same of `migrate`: it writes each block anew and tells how many there are, or it finds no memory, or a block has its last
/// version; and the tree is there under the password.
pub fn migrations_complete<V: Vault, K: Keeper>()
    ensures { MigrateCompletes V.trace V.faults K.Keeper }
{}

/// The same of one answer of a mount: where there was no violation and it stood for a kept and a present tree, what it answers to
/// a line is the present tree's reply, or it finds no memory, or a block that the command would change has its last version; and
/// there is no violation, and it stands for trees again.
pub fn answers_complete<V: Vault, K: Keeper>()
    ensures { AnswersComplete V.trace V.faults K.Keeper }
{}
