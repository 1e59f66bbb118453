// One command of a copy.
ghost use Rattle.std.specs.Prelude.{◌≡◌, Ok};
ghost use Rattle.fs_model.specs.Fitting.{IsFitting};
ghost use Rattle.copy_sessions.specs.Fitting.{ReplyOf};

use fs_model::{Command, Moment, Reply};
use session_lines::answers::{Answer, Host};
use std::alloc::Global;

/// The answer to a command. What refuses is asked for nothing.
pub fn ask_host<H: Host>(alloc: Global, host: &mut H, now: Moment, command: &Command) -> Answer
    requires ready { H.hosting.ready host.old }
    requires fits { IsFitting command.now }
    ensures ready { H.hosting.ready host.new }
    ensures chance { H.hosting.chance host.new ≡ H.hosting.chance host.old }
    ensures answered { H.hosting.answers host.old now (Ok command.now) result host.new }
{
    if host.refuses() {
        return Answer::Refused;
    }
    host.answer(alloc, now, command)
}

/// The reply that an answer is, or the answer that is none.
pub fn reply_of(answer: Answer) -> Result<Reply, Answer>
    ensures { ReplyOf answer result }
{
    match answer {
        Answer::Reply(reply) => Ok(reply),
        other => Err(other),
    }
}
