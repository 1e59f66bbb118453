// Laws of the tree's step. Each function changes nothing: its contract is the law.
ghost use Rattle.std.specs.Prelude.{◌≡◌};
ghost use Rattle.fs_model.specs.declared.reply.Reply.TheVariants.{Done, Error};
ghost use Rattle.fs_model.specs.declared.error.FsError.{FsError};
ghost use Rattle.fs_model.specs.declared.command.Command.TheVariants.{Mv};
ghost use Rattle.fs_model.specs.Fitting.{IsFitting};
ghost use Rattle.fs_model.specs.Tree.{Tree, IsRooted, IsWellFormed, upward};
ghost use Rattle.fs_model.specs.LookUp.{look, walk};
ghost use Rattle.fs_model.specs.Step.{step};
ghost use Rattle.fs_model.specs.Laws.{OnlyLooks, IsMoved};

use crate::{Command, Moment, Path};

/// A command that fits keeps a tree well formed, limits included.
pub fn keeps_well_formed(now: Moment, command: &Command)
    requires { IsFitting command.now }
    ensures { (tree : Tree) → IsWellFormed tree → IsWellFormed (step tree now command.now).tree }
{
    command.holds_names();
}

/// An error leaves the tree.
pub fn error_leaves_tree(now: Moment, command: &Command)
    ensures { (tree : Tree) (error : FsError) → (step tree now command.now).reply ≡ Error error → (step tree now command.now).tree ≡ tree }
{}

/// `List`, `Stat`, `Readlink`, `Read` and `Sync` leave the tree.
pub fn looking_leaves_tree(now: Moment, command: &Command)
    requires { OnlyLooks command.now }
    ensures { (tree : Tree) → (step tree now command.now).tree ≡ tree }
{}

/// A move neither makes nor loses a row but the one that it replaces, and the moved row arrives with a new ctime.
pub fn move_keeps_rows(now: Moment, from: &Path, to: &Path)
    ensures { (tree : Tree) → IsWellFormed tree → (step tree now (Mv from.now to.now)).reply ≡ Done → (from.now ≡ to.now → ⊥) → IsMoved tree (step tree now (Mv from.now to.now)).tree now (upward from.now) (upward to.now) }
{}

/// In a tree with its root and parents, the look-up by the longest prefix says what the walk from the
/// root on says.
pub fn look_up_walks(path: &Path)
    ensures { (tree : Tree) → IsRooted tree → look tree (upward path.now) ≡ walk tree (upward path.now) }
{}
