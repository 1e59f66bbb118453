// What looks over a store of blocks answer.
ghost use Rattle.std.specs.Prelude.{◌≡◌, ◌↔◌, false, IsTrue};
ghost use Rattle.fs_model.specs.Fitting.{IsFitting};
ghost use Rattle.fs_model.specs.Laws.{OnlyLooks};
ghost use Rattle.mount_answering.specs.mount_core.Answers.{answer_of_fail};
ghost use Rattle.looking.specs.Hosting.{IsLook, IsReady, looked_hosting, store_of};
ghost use Rattle.looking.specs.HostLaws.{looked_lawful};

use block_id::{BlockId, Fail};
use fs_model::{Command, Moment};
use mount_answering::mount_core::answers::{Answer, Host};
use mount_answering::mount_core::path_layer::{BlobStore, perform};
use mount_answering::store_api::Blocks;
use std::alloc::Global;

/// Blocks that are only read, from the root of a tree on. It answers the commands that only look; one that would change the
/// tree is answered by `Spent`, for no block gets another payload here. After a violation each is refused.
pub struct Looked<S> {
    pub blobs: BlobStore<S>,
    pub root: BlockId,
    pub violated: bool,
}

fn only_looks(command: &Command) -> bool
    ensures { IsTrue result ↔ OnlyLooks command.now }
{
    match command {
        Command::List(_)
        | Command::Stat(_)
        | Command::Readlink(_)
        | Command::Read(_, _, _)
        | Command::Sync => true,
        _ => false,
    }
}

fn fail_answer(fail: Fail) -> Answer
    ensures { result ≡ answer_of_fail fail }
{
    match fail {
        Fail::Memory => Answer::Memory,
        Fail::Fault => Answer::FaultDirectory,
        Fail::Violation(why) => Answer::Violation(why),
    }
}

impl<S: Blocks> Looked<S> {
    /// The answer to a command; whether it is a violation isn't noted yet.
    fn look(&mut self, alloc: Global, now: Moment, command: &Command) -> Answer
        requires ready { IsReady S.meanings S.holdings self.old }
        requires serves { self.old.violated ≡ false }
        requires fits { IsFitting command.now }
        ensures ready { IsReady S.meanings S.holdings self.new }
        ensures answered { IsLook S.meanings S.holdings now self.old command.now result (store_of self.new) }
        ensures root { self.new.root ≡ self.old.root }
        ensures violated { self.new.violated ≡ self.old.violated }
    {
        if !only_looks(command) {
            return Answer::Spent;
        }
        let performed = perform(alloc, &mut self.blobs, &self.root, now, command);
        self.blobs.tx.abandon();
        match performed {
            Ok(reply) => Answer::Reply(reply),
            Err(fail) => fail_answer(fail),
        }
    }
}

impl<S: Blocks> Host for Looked<S> {
    ghost hosting = { looked_hosting S.meanings S.holdings };

    fn refuses(&self) -> bool {
        self.violated
    }

    fn answer(&mut self, alloc: Global, now: Moment, command: &Command) -> Answer {
        let answer = self.look(alloc, now, command);
        match answer {
            Answer::Violation(_) => self.violated = true,
            _ => {}
        }
        answer
    }

    ghost lawful = { looked_lawful S.meanings S.holdings S.lawful };
}
