// A tree in memory that answers the commands of a copy.
ghost use Rattle.std.specs.Prelude.{◌≡◌, ◌≤◌, ℕ, [], ◌∷◌, true, IfOk};
ghost use Rattle.fs_model.specs.Fitting.{IsFitting};
ghost use Rattle.fs_model.specs.Step.{step};
ghost use Rattle.fs_model.specs.Tree.{Tree};
ghost use Rattle.tree_copy.specs.copy_laws.Questions.{IsReplyTo, StopsOnce};
ghost use Rattle.copy_tests.specs.Plain.{asking_of, lawful_of};

use block_id::Memory;
use fs_model::{Command, Moment, Reply};
use plain_tree::PlainTree;
use std::alloc::Global;
use tree_copy::copy_laws::{Asker, Stopped};

/// A tree in memory, at a moment.
#[derive(Drop)]
pub struct PlainAsker {
    pub tree: PlainTree,
    pub now: Moment,
    pub stops: u64,
}

/// Whether the reply has a form of the command's.
fn is_reply_to(command: &Command, reply: &Reply) -> bool
    ensures { result ≡ true → IsReplyTo command.now reply.now }
{
    match reply {
        Reply::Error(_) => return true,
        _ => {}
    }
    match command {
        Command::List(_) => matches!(reply, Reply::Rows(_)),
        Command::Stat(_) => matches!(reply, Reply::Info(_, _)),
        Command::Readlink(_) => matches!(reply, Reply::Target(_)),
        Command::Read(_, _, _) => matches!(reply, Reply::Content(_)),
        _ => matches!(reply, Reply::Done),
    }
}

impl Asker for PlainAsker {
    ghost asking = { asking_of (λ a. a.tree) (λ a. a.now) (λ a. a.stops) };

    fn ask(&mut self, alloc: Global, command: &Command) -> Result<Reply, Stopped>
        requires fits { IsFitting command.now }
        ensures moment { self.new.now ≡ self.old.now }
        ensures variant { IfOk result (IsReplyTo command.now) }
        ensures stands { (t : Tree) → t ≡ self.old.tree → 0 ≤ 0
            → IfOk result (λ reply. (next : Tree) × ((step t self.old.now command.now ≡ record { reply = reply; tree = next }) × (next ≡ self.new.tree))) }
        ensures stops { StopsOnce result self.old.stops self.new.stops }
    {
        let _ = alloc;
        let reply = match self.tree.step(self.now, command) {
            Ok(reply) => reply,
            Err(Memory) => {
                self.stops = self.stops.saturating_add(1);
                return Err(Stopped);
            }
        };
        if !is_reply_to(command, &reply) {
            self.stops = self.stops.saturating_add(1);
            return Err(Stopped);
        }
        Ok(reply)
    }

    ghost lawful = { lawful_of (λ a. a.tree) (λ a. a.now) (λ a. a.stops) };
}
