// Commands that are asked for a request.
ghost use Rattle.std.specs.Prelude.{◌≡◌, true, Ok, IfOk};
ghost use Rattle.answers.specs.declared.answer.Answer.TheVariants.{Reply as Replied};
ghost use Rattle.fs_model.specs.declared.command.Command.TheVariants.{Sync};
ghost use Rattle.fs_model.specs.declared.reply.Reply.TheVariants.{Done};
ghost use Rattle.mount_serving.specs.Asking.{AskedOne};
ghost use Rattle.mount_serving.specs.Errors.{error_of, told_of};

use crate::state::State;
use answers::{Answer, Host};
use fs_model::{Attr, Command, FsError, Path, Reply};
use fuse_messages::ErrorNumber;
use std::alloc::Global;

/// The error of the tree as the kernel numbers it.
fn number_of(error: FsError) -> ErrorNumber
    ensures { result ≡ error_of error }
{
    match error {
        FsError::NoEntry => ErrorNumber::NoEntry,
        FsError::Exists => ErrorNumber::Exists,
        FsError::NotDirectory => ErrorNumber::NotDirectory,
        FsError::IsDirectory => ErrorNumber::IsDirectory,
        FsError::NotEmpty => ErrorNumber::NotEmpty,
        FsError::Busy => ErrorNumber::Busy,
        FsError::NameTooLong => ErrorNumber::NameTooLong,
        FsError::TooLarge => ErrorNumber::TooLarge,
        FsError::Invalid | FsError::NotLink | FsError::BadLine => ErrorNumber::Invalid,
    }
}

/// What an answer tells: the tree's reply, where that is no error.
fn told(answer: Answer) -> Result<Reply, ErrorNumber>
    ensures { result ≡ told_of answer }
{
    match answer {
        Answer::Reply(Reply::Error(error)) => Err(number_of(error)),
        Answer::Reply(reply) => Ok(reply),
        Answer::Violation(_) | Answer::Refused => Err(ErrorNumber::BadMessage),
        Answer::Memory => Err(ErrorNumber::NoMemory),
        Answer::Spent | Answer::FaultDirectory | Answer::FaultState => Err(ErrorNumber::Io),
    }
}

/// A violation is to be told.
fn note_violation(state: &mut State, answer: &Answer)
    ensures { state.new ≡ record state.old { violation = state.new.violation } }
{
    if let Answer::Violation(why) = answer {
        state.violation = Some(*why);
    }
}

/// The tree's reply to a command, where that is no error, or why there is none. After a violation nothing is asked.
pub(crate) fn ask<H: Host>(
    alloc: Global,
    host: &mut H,
    state: &mut State,
    command: &Command,
) -> Result<Reply, ErrorNumber>
    requires ready { H.hosting.ready host.old }
    ensures ready { H.hosting.ready host.new }
    ensures asked { AskedOne H.hosting host.old state.old.now command.now result host.new }
    ensures refused { H.hosting.refuses host.old ≡ true → (result ≡ Err ErrorNumber.BadMessage) × (host.new ≡ host.old) }
    ensures noted { state.new ≡ record state.old { violation = state.new.violation } }
{
    if host.refuses() {
        return Err(ErrorNumber::BadMessage);
    }
    if !command.fits() {
        return Err(ErrorNumber::Invalid);
    }
    let answer = host.answer(alloc, state.now, command);
    note_violation(state, &answer);
    told(answer)
}

/// Asks a command that changes the tree, and notes when the first one was.
pub(crate) fn change<H: Host>(
    alloc: Global,
    host: &mut H,
    state: &mut State,
    command: &Command,
) -> Result<(), ErrorNumber>
    requires ready { H.hosting.ready host.old }
    ensures ready { H.hosting.ready host.new }
{
    let _done = ask(alloc, host, state, command)?;
    if state.changed.is_none() {
        state.changed = Some(state.now);
    }
    Ok(())
}

/// Has all that was changed kept. Ok only where the sync was answered Done.
pub(crate) fn sync<H: Host>(
    alloc: Global,
    host: &mut H,
    state: &mut State,
) -> Result<(), ErrorNumber>
    requires ready { H.hosting.ready host.old }
    ensures ready { H.hosting.ready host.new }
    ensures synced { IfOk result (λ _. H.hosting.answers host.old state.old.now (Ok Sync) (Replied Done) host.new) }
    ensures refused { H.hosting.refuses host.old ≡ true → (result ≡ Err ErrorNumber.BadMessage) × (host.new ≡ host.old) }
{
    match ask(alloc, host, state, &Command::Sync)? {
        Reply::Done => {
            state.changed = None;
            Ok(())
        }
        _ => Err(ErrorNumber::Io),
    }
}

/// The attributes of what stands at a path, and its number of bytes.
pub(crate) fn attributes_at<H: Host>(
    alloc: Global,
    host: &mut H,
    state: &mut State,
    path: Path,
) -> Result<(Attr, u64), ErrorNumber>
    requires ready { H.hosting.ready host.old }
    ensures ready { H.hosting.ready host.new }
{
    match ask(alloc, host, state, &Command::Stat(path))? {
        Reply::Info(attr, size) => Ok((attr, size)),
        _ => Err(ErrorNumber::Io),
    }
}
