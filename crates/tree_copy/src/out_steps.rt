// One row more of an export.
ghost use Rattle.std.specs.Prelude.{◌≡◌, ℕ, OnOk};
ghost use Rattle.copy_row.specs.copy_laws.Ends.{HostCause, StopCause};
ghost use Rattle.tree_copy.specs.Exports.{StepsOut, StepsOutAt, TreeBegun};
ghost use Rattle.tree_copy.specs.Levels.{IsDeeper};

use crate::levels::{Level, enter_tree, next_row};
use crate::steps::fail_at;
use block_id::Memory;
use copy_row::copy_laws::{Asker, CopyFail, Totals};
use copy_row::host_folder::Folder;
use copy_row::{RowPlace, is_short, row_out};
use fs_model::{Kind, Path};
use std::alloc::Global;

/// Begins the directory of the tree: its rows are to be copied.
pub fn begin_tree<A: Asker>(
    alloc: Global,
    asker: &mut A,
    host: Path,
    tree: Path,
    levels: &mut Vec<Level>,
) -> Result<(), CopyFail>
    requires ready { A.asking.ready asker.old }
    ensures ready { A.asking.ready asker.new }
    ensures stops { StopCause (A.asking.stops asker.old) (A.asking.stops asker.new) result }
    ensures host { (faults : ℕ) → HostCause faults faults result }
    ensures begun { TreeBegun A.asking asker.old asker.new host tree levels.old.items levels.new.items result }
{
    match enter_tree(alloc, asker, host, &tree, levels) {
        Ok(()) => {}
        Err(stop) => return Err(fail_at(stop, tree)),
    }
    Ok(())
}

/// Copies the row into the folder, and begins the directory that it is.
fn export_at<F: Folder, A: Asker>(
    alloc: Global,
    host: &mut F,
    asker: &mut A,
    at: RowPlace,
    levels: &mut Vec<Level>,
    totals: &mut Totals,
) -> Result<(), CopyFail>
    requires ready { A.asking.ready asker.old }
    ensures ready { A.asking.ready asker.new }
    ensures host { HostCause (F.faults host.old) (F.faults host.new) result }
    ensures stops { StopCause (A.asking.stops asker.old) (A.asking.stops asker.new) result }
    ensures levels { OnOk result (IsDeeper at.host levels.old.items levels.new.items) }
    ensures steps { StepsOutAt A.asking asker.old asker.new (F.tree host.old) (F.tree host.new) at levels.old.items levels.new.items totals.old totals.new result }
{
    if !is_short(&at.host) {
        return Err(CopyFail::LongPath(at.host));
    }
    match row_out(alloc, host, asker, &at, totals) {
        Ok(()) => {}
        Err(stop) => return Err(fail_at(stop, at.tree)),
    }
    match at.kind {
        Kind::Directory => {}
        Kind::File => return Ok(()),
        Kind::Link => return Ok(()),
    }
    match begin_tree(alloc, asker, at.host, at.tree, levels) {
        Ok(()) => {}
        Err(fail) => return Err(fail),
    }
    Ok(())
}

/// Copies the next row of the directory that was begun last, and begins the directory that it is. Whether that isn't all.
pub fn export_next<F: Folder, A: Asker>(
    alloc: Global,
    host: &mut F,
    asker: &mut A,
    levels: &mut Vec<Level>,
    totals: &mut Totals,
) -> Result<bool, CopyFail>
    requires ready { A.asking.ready asker.old }
    ensures ready { A.asking.ready asker.new }
    ensures host { HostCause (F.faults host.old) (F.faults host.new) result }
    ensures stops { StopCause (A.asking.stops asker.old) (A.asking.stops asker.new) result }
    ensures steps { StepsOut A.asking asker.old asker.new (F.tree host.old) (F.tree host.new) levels.old.items levels.new.items totals.old totals.new result }
{
    let mut level = match levels.pop() {
        Some(level) => level,
        None => return Ok(false),
    };
    let at = match next_row(alloc, &mut level) {
        Ok(Some(at)) => at,
        Ok(None) => return Ok(true),
        Err(Memory) => return Err(CopyFail::Memory),
    };
    match levels.push(level) {
        Ok(()) => {}
        Err(_) => return Err(CopyFail::Memory),
    }
    match export_at(alloc, host, asker, at, levels, totals) {
        Ok(()) => {}
        Err(fail) => return Err(fail),
    }
    Ok(true)
}
