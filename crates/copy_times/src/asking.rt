// A command that gives a row attributes.
ghost use Rattle.std.specs.Prelude.{◌≡◌, ◌∷◌, []};
ghost use Rattle.fs_model.specs.Fitting.{IsFitting};
ghost use Rattle.copy_row.specs.Rows.{refusal};
ghost use Rattle.copy_row.specs.copy_laws.Ends.{StopCause};
ghost use Rattle.copy_times.specs.Asking.{HasPath, IsGift, gift_for, path_in};
ghost use Rattle.copy_times.specs.Giving.{GaveAll, NeverHost};

use block_id::Memory;
use copy_row::copy_laws::{Asker, CopyFail, Stopped};
use copy_row::copy_path;
use fs_model::{AttrChange, Command, FsError, Path, Reply};
use std::alloc::Global;

/// Asks for a change of a row's attributes.
pub fn ask_change<A: Asker>(
    alloc: Global,
    asker: &mut A,
    path: &Path,
    change: AttrChange,
) -> Result<(), CopyFail>
    requires ready { A.asking.ready asker.old }
    requires fits { IsFitting (gift_for path.now change) }
    ensures ready { A.asking.ready asker.new }
    ensures asks { GaveAll A.asking asker.old asker.new (gift_for path.now change ∷ []) result }
    ensures stops { StopCause (A.asking.stops asker.old) (A.asking.stops asker.new) result }
    ensures host { NeverHost result }
{
    let path = match copy_path(alloc, path) {
        Ok(path) => path,
        Err(Memory) => return Err(CopyFail::Memory),
    };
    ask_gift(alloc, asker, command_for(path, change))
}

/// The command that asks for a change.
fn command_for(path: Path, change: AttrChange) -> Command
    ensures value { result ≡ gift_for path change }
    ensures gift { IsGift result }
{
    match change {
        AttrChange::Mode(mode) => Command::Chmod(path, mode),
        AttrChange::Owner(uid, gid) => Command::Chown(path, uid, gid),
        AttrChange::Times(atime, mtime) => Command::Utime(path, atime, mtime),
    }
}

/// Asks a command that gives a row attributes.
fn ask_gift<A: Asker>(alloc: Global, asker: &mut A, command: Command) -> Result<(), CopyFail>
    requires ready { A.asking.ready asker.old }
    requires fits { IsFitting command }
    requires gift { IsGift command }
    ensures ready { A.asking.ready asker.new }
    ensures asks { GaveAll A.asking asker.old asker.new (command ∷ []) result }
    ensures stops { StopCause (A.asking.stops asker.old) (A.asking.stops asker.new) result }
    ensures host { NeverHost result }
{
    match asker.ask(alloc, &command) {
        Ok(reply) => match error_of(&reply) {
            None => Ok(()),
            Some(error) => Err(CopyFail::Refused(path_of(command), error)),
        },
        Err(Stopped) => Err(CopyFail::Stopped),
    }
}

/// The error that a reply is.
pub fn error_of(reply: &Reply) -> Option<FsError>
    ensures { result ≡ refusal reply.now }
{
    match reply {
        Reply::Error(error) => Some(*error),
        _ => None,
    }
}

/// The path that a command of a copy's attributes names.
pub fn path_of(command: Command) -> Path
    requires { HasPath command }
    ensures { result ≡ path_in command }
{
    match command {
        Command::Chown(path, _, _)
        | Command::Chmod(path, _)
        | Command::Utime(path, _, _)
        | Command::List(path)
        | Command::Stat(path) => path,
        _ => unreachable!(),
    }
}
