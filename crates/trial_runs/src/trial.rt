// The plain tree as what answers commands.
ghost use Rattle.trial_runs.specs.Plain.{plain};
ghost use Rattle.trial_runs.specs.Lawful.{plain_lawful};

use answers::{Answer, Host};
use block_id::Memory;
use fs_model::{Command, Moment};
use plain_tree::PlainTree;
use std::alloc::Global;

/// A plain tree, which gives its replies, or `Memory`.
#[derive(Drop)]
pub struct Trial {
    pub tree: PlainTree,
}

impl Host for Trial {
    ghost use Rattle.trial_runs.specs.declared.trial.Trial.{Trial};

    ghost hosting = { plain (λ (t : Trial). t.tree) };

    fn refuses(&self) -> bool {
        false
    }

    fn answer(&mut self, _alloc: Global, now: Moment, command: &Command) -> Answer {
        match self.tree.step(now, command) {
            Ok(reply) => Answer::Reply(reply),
            Err(Memory) => Answer::Memory,
        }
    }

    ghost lawful = { plain_lawful (λ (t : Trial). t.tree) };
}
