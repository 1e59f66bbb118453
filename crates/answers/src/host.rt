// What answers commands.
ghost use Rattle.std.specs.Prelude.{◌≡◌, false, Ok};
ghost use Rattle.fs_model.specs.Fitting.{IsFitting};
ghost use Rattle.answers.specs.Hosts.{Hosting, LawfulHost};

use crate::Answer;
use fs_model::{Command, Moment};
use std::alloc::Global;

/// Answers commands, one after another: a plain tree, or a mount.
pub trait Host {
    ghost hosting: { Hosting Self };

    /// Whether each further command is refused, and each line that is none.
    fn refuses(&self) -> bool
        ensures { result ≡ hosting.refuses self.now };

    /// Answers a command.
    fn answer(&mut self, alloc: Global, now: Moment, command: &Command) -> Answer
        requires ready { hosting.ready self.old }
        requires serves { hosting.refuses self.old ≡ false }
        requires fits { IsFitting command.now }
        ensures ready { hosting.ready self.new }
        ensures answered { hosting.answers self.old now (Ok command.now) result self.new }
        ensures chance { hosting.chance self.new ≡ hosting.chance self.old };

    ghost lawful: { LawfulHost hosting };
}
