// What answers the commands of a copy.
ghost use Rattle.std.specs.Prelude.{◌≡◌, ◌≤◌, [], ◌∷◌, IfOk};
ghost use Rattle.fs_model.specs.Step.{step};
ghost use Rattle.fs_model.specs.Tree.{Tree};
ghost use Rattle.copy_laws.specs.Questions.{Asking, LawfulAsker, MayAsk, IsReplyTo, StopsOnce};

use fs_model::{Command, Reply};
use std::alloc::Global;

/// The command wasn't answered.
#[derive(Clone, Copy)]
pub struct Stopped;

/// Answers commands, one after another. What it has, counts and was asked is told by `asking`.
pub trait Asker {
    ghost asking: { Asking Self };

    /// Asks a command.
    fn ask(&mut self, alloc: Global, command: &Command) -> Result<Reply, Stopped>
        requires { MayAsk asking self.old command.now }
        ensures ready { asking.ready self.new }
        ensures moment { asking.moment self.new ≡ asking.moment self.old }
        ensures went { asking.went self.old (record { command = command.now; outcome = result } ∷ []) self.new }
        ensures variant { IfOk result (IsReplyTo command.now) }
        ensures stands { (t : Tree) → asking.stands_for self.old t → asking.forgeries self.new ≤ asking.forgeries self.old
            → IfOk result (λ reply. (next : Tree) × ((step t (asking.moment self.old) command.now ≡ record { reply = reply; tree = next }) × asking.stands_for self.new next)) }
        ensures forgeries { asking.forgeries self.old ≤ asking.forgeries self.new }
        ensures stops { StopsOnce result (asking.stops self.old) (asking.stops self.new) };

    ghost lawful: { LawfulAsker asking };
}
