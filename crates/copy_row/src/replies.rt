// What a tree replies to the questions of an export.
ghost use Rattle.std.specs.Prelude.{◌≡◌, ◌↔◌, ℕ, IfOk, IsTrue, OnOk};
ghost use Rattle.fs_model.specs.Fitting.{is_target};
ghost use Rattle.copy_laws.specs.Exporting.{IsReader};
ghost use Rattle.copy_row.specs.Rows.{StopsBy, NeverHost};
ghost use Rattle.copy_row.specs.Reads.{OneRead, Reads, SaysRows, SaysPiece, SaysTarget};

use crate::asking::refusal_of;
use crate::bytes::PIECE;
use crate::paths::copy_path;
use crate::stop::Stop;
use block_id::Memory;
use copy_laws::{Asker, Stopped};
use fs_model::{ByteText, Command, FsError, MAX_TARGET, Path, Reply, RowList, has_zero};
use std::alloc::Global;

/// Asks a question of an export.
fn ask_reader<A: Asker>(alloc: Global, asker: &mut A, command: &Command) -> Result<Reply, Stop>
    requires ready { A.asking.ready asker.old }
    requires reader { IsReader command.now }
    ensures ready { A.asking.ready asker.new }
    ensures stops { StopsBy (A.asking.stops asker.old) (A.asking.stops asker.new) result }
    ensures host { NeverHost result }
    ensures read { OneRead A.asking asker.old asker.new command.now result }
{
    match asker.ask(alloc, command) {
        Ok(reply) => match refusal_of(&reply) {
            None => Ok(reply),
            Some(error) => Err(Stop::Refused(error)),
        },
        Err(Stopped) => Err(Stop::Stopped),
    }
}

/// The rows of the directory at this path.
pub fn ask_rows<A: Asker>(alloc: Global, asker: &mut A, tree: &Path) -> Result<RowList, Stop>
    requires ready { A.asking.ready asker.old }
    ensures ready { A.asking.ready asker.new }
    ensures stops { StopsBy (A.asking.stops asker.old) (A.asking.stops asker.new) result }
    ensures host { NeverHost result }
    ensures reads { Reads A.asking asker.old asker.new tree.now SaysRows result }
{
    let path = match copy_path(alloc, tree) {
        Ok(path) => path,
        Err(Memory) => return Err(Stop::Memory),
    };
    match ask_reader(alloc, asker, &Command::List(path)) {
        Ok(Reply::Rows(rows)) => Ok(rows),
        Ok(_) => unreachable!(),
        Err(stop) => Err(stop),
    }
}

/// A piece of the file at this path: whole, or less where the file ends.
pub fn ask_piece<A: Asker>(
    alloc: Global,
    asker: &mut A,
    tree: &Path,
    from: u64,
) -> Result<ByteText, Stop>
    requires ready { A.asking.ready asker.old }
    ensures ready { A.asking.ready asker.new }
    ensures stops { StopsBy (A.asking.stops asker.old) (A.asking.stops asker.new) result }
    ensures host { NeverHost result }
    ensures reads { Reads A.asking asker.old asker.new tree.now (SaysPiece from) result }
{
    let path = match copy_path(alloc, tree) {
        Ok(path) => path,
        Err(Memory) => return Err(Stop::Memory),
    };
    let command = Command::Read(path, from, PIECE as u64);
    match ask_reader(alloc, asker, &command) {
        Ok(Reply::Content(bytes)) => Ok(bytes),
        Ok(_) => unreachable!(),
        Err(stop) => Err(stop),
    }
}

/// Whether a link may have this target.
fn fits_link(target: &[u8]) -> bool
    ensures { IsTrue result ↔ IsTrue (is_target target.now) }
{
    if target.is_empty() || target.len() > MAX_TARGET {
        return false;
    }
    !has_zero(target)
}

/// The target of the link at this path. No tree has one that no link may have.
pub fn ask_target<A: Asker>(alloc: Global, asker: &mut A, tree: &Path) -> Result<ByteText, Stop>
    requires ready { A.asking.ready asker.old }
    ensures ready { A.asking.ready asker.new }
    ensures stops { StopsBy (A.asking.stops asker.old) (A.asking.stops asker.new) result }
    ensures host { NeverHost result }
    ensures fits { IfOk result (λ target. IsTrue (is_target target)) }
    ensures reads { Reads A.asking asker.old asker.new tree.now SaysTarget result }
{
    let path = match copy_path(alloc, tree) {
        Ok(path) => path,
        Err(Memory) => return Err(Stop::Memory),
    };
    let target = match ask_reader(alloc, asker, &Command::Readlink(path)) {
        Ok(Reply::Target(target)) => target,
        Ok(_) => unreachable!(),
        Err(stop) => return Err(stop),
    };
    if !fits_link(target.as_slice()) {
        return Err(Stop::Refused(FsError::Invalid));
    }
    Ok(target)
}
