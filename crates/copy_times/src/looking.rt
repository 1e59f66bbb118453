// The rows of a tree's directory, with their attributes.
ghost use Rattle.std.specs.Prelude.{◌≡◌, ◌∷◌, ◌++◌, [], OnOk};
ghost use Rattle.copy_row.specs.copy_laws.Ends.{StopCause};
ghost use Rattle.copy_times.specs.Asking.{IsLook};
ghost use Rattle.fs_model.specs.Fitting.{IsFitting};
ghost use Rattle.copy_times.specs.Giving.{NeverHost};
ghost use Rattle.copy_times.specs.Taking.{Looked, Sees, SaysAttr, SaysNames, info_in};
ghost use Rattle.host_attributes.specs.Attributes.{rows_in};

use crate::asking::{error_of, path_of};
use block_id::Memory;
use copy_row::copy_laws::{Asker, CopyFail, Stopped};
use copy_row::{child_of, copy_path};
use fs_model::{Attr, Command, Name, Path, Reply, RowList};
use host_attributes::AttributedRow;
use std::alloc::Global;

/// Asks a command that looks.
fn ask_look<A: Asker>(alloc: Global, asker: &mut A, command: Command) -> Result<Reply, CopyFail>
    requires ready { A.asking.ready asker.old }
    requires fits { IsFitting command }
    requires look { IsLook command }
    ensures ready { A.asking.ready asker.new }
    ensures looked { Looked A.asking asker.old asker.new command result }
    ensures stops { StopCause (A.asking.stops asker.old) (A.asking.stops asker.new) result }
    ensures host { NeverHost result }
{
    match asker.ask(alloc, &command) {
        Ok(reply) => match error_of(&reply) {
            None => Ok(reply),
            Some(error) => Err(CopyFail::Refused(path_of(command), error)),
        },
        Err(Stopped) => Err(CopyFail::Stopped),
    }
}

/// Asks for the kinds and names of a directory's rows.
fn ask_names<A: Asker>(alloc: Global, asker: &mut A, path: &Path) -> Result<RowList, CopyFail>
    requires ready { A.asking.ready asker.old }
    ensures ready { A.asking.ready asker.new }
    ensures sees { Sees A.asking asker.old asker.new (SaysNames path.now) result }
    ensures stops { StopCause (A.asking.stops asker.old) (A.asking.stops asker.new) result }
    ensures host { NeverHost result }
{
    let path = match copy_path(alloc, path) {
        Ok(path) => path,
        Err(Memory) => return Err(CopyFail::Memory),
    };
    match ask_look(alloc, asker, Command::List(path)) {
        Ok(Reply::Rows(rows)) => Ok(rows),
        Ok(_) => unreachable!(),
        Err(fail) => Err(fail),
    }
}

/// Asks for the attributes of the row of this name in a directory.
fn ask_attr<A: Asker>(
    alloc: Global,
    asker: &mut A,
    path: &Path,
    name: &Name,
) -> Result<Attr, CopyFail>
    requires ready { A.asking.ready asker.old }
    ensures ready { A.asking.ready asker.new }
    ensures sees { Sees A.asking asker.old asker.new (SaysAttr (path.now ++ name.now ∷ [])) result }
    ensures stops { StopCause (A.asking.stops asker.old) (A.asking.stops asker.new) result }
    ensures host { NeverHost result }
{
    let child = match child_of(alloc, path, name) {
        Ok(child) => child,
        Err(Memory) => return Err(CopyFail::Memory),
    };
    let reply = match ask_look(alloc, asker, Command::Stat(child)) {
        Ok(reply) => reply,
        Err(fail) => return Err(fail),
    };
    match info_in(&reply) {
        Some(attr) => Ok(attr),
        None => unreachable!(),
    }
}

/// The attributes that a reply tells.
fn info_in(reply: &Reply) -> Option<Attr>
    ensures { result ≡ info_in reply.now }
{
    match reply {
        Reply::Info(attr, _) => Some(*attr),
        _ => None,
    }
}

/// Asks for the rows of a directory, with their attributes.
pub fn ask_attributes<A: Asker>(
    alloc: Global,
    asker: &mut A,
    path: &Path,
) -> Result<Vec<AttributedRow>, CopyFail>
    requires ready { A.asking.ready asker.old }
    ensures ready { A.asking.ready asker.new }
    ensures sees { Sees A.asking asker.old asker.new (λ t rows. rows.items ≡ rows_in t path.now) result }
    ensures stops { StopCause (A.asking.stops asker.old) (A.asking.stops asker.new) result }
    ensures host { NeverHost result }
{
    let names = match ask_names(alloc, asker, path) {
        Ok(names) => names,
        Err(fail) => return Err(fail),
    };
    let listed = names.as_slice();
    let mut rows = Vec::new(alloc);
    for row in listed {
        let attr = match ask_attr(alloc, asker, path, &row.name) {
            Ok(attr) => attr,
            Err(fail) => return Err(fail),
        };
        match push_row(&mut rows, &row.name, attr) {
            Ok(()) => {}
            Err(Memory) => return Err(CopyFail::Memory),
        }
    }
    Ok(rows)
}

fn push_row(rows: &mut Vec<AttributedRow>, name: &Name, attr: Attr) -> Result<(), Memory>
    ensures { OnOk result (rows.new.items ≡ rows.old.items ++ record { name = name.now; attr = attr } ∷ []) }
{
    let name = name.try_clone()?;
    rows.push(AttributedRow { name, attr })?;
    Ok(())
}
