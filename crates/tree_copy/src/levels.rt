// The directories that a copy is in.
ghost use Rattle.std.specs.Prelude.{◌≡◌, IfOk, IfSome, OnOk};
ghost use Rattle.outside.specs.Causes.{GetHasCause};
ghost use Rattle.copy_row.specs.host_folder.Folders.{IsHostTree};
ghost use Rattle.copy_row.specs.Rows.{StopsBy, NeverHost};
ghost use Rattle.tree_copy.specs.Exports.{TreeEntered};
ghost use Rattle.tree_copy.specs.Levels.{IsEntered, NextIs};

use block_id::Memory;
use copy_row::copy_laws::Asker;
use copy_row::host_folder::Folder;
use copy_row::{RowPlace, Stop, ask_rows, child_of, copy_path};
use fs_model::{Path, RowList};
use outside::GetFail;
use std::alloc::Global;

/// A directory whose rows are copied: from this one on.
#[derive(Drop)]
pub struct Level {
    pub host: Path,
    pub tree: Path,
    pub rows: RowList,
    pub next: usize,
}

/// Begins the directory: its rows are to be copied.
pub fn enter<F: Folder>(
    alloc: Global,
    host: &mut F,
    from: Path,
    to: &Path,
    levels: &mut Vec<Level>,
) -> Result<(), GetFail>
    ensures same { F.tree host.new ≡ F.tree host.old }
    ensures cause { GetHasCause (F.faults host.old) (F.faults host.new) result }
    ensures tree { IfSome (F.tree host.old) IsHostTree }
    ensures entered { OnOk result (IsEntered (F.tree host.old) from to.now levels.old.items levels.new.items) }
{
    let rows = match host.list(alloc, &from) {
        Ok(rows) => rows,
        Err(fail) => return Err(fail),
    };
    let tree = match copy_path(alloc, to) {
        Ok(tree) => tree,
        Err(Memory) => return Err(GetFail::Memory),
    };
    let level = Level {
        host: from,
        tree,
        rows,
        next: 0,
    };
    match levels.push(level) {
        Ok(()) => {}
        Err(_) => return Err(GetFail::Memory),
    }
    Ok(())
}

/// Begins the directory of the tree: its rows are to be copied.
pub fn enter_tree<A: Asker>(
    alloc: Global,
    asker: &mut A,
    host: Path,
    tree: &Path,
    levels: &mut Vec<Level>,
) -> Result<(), Stop>
    requires ready { A.asking.ready asker.old }
    ensures ready { A.asking.ready asker.new }
    ensures stops { StopsBy (A.asking.stops asker.old) (A.asking.stops asker.new) result }
    ensures never { NeverHost result }
    ensures entered { TreeEntered A.asking asker.old asker.new host tree.now levels.old.items levels.new.items result }
{
    let path = match copy_path(alloc, tree) {
        Ok(path) => path,
        Err(Memory) => return Err(Stop::Memory),
    };
    let rows = match ask_rows(alloc, asker, tree) {
        Ok(rows) => rows,
        Err(stop) => return Err(stop),
    };
    let next = 0;
    let level = Level {
        host,
        tree: path,
        rows,
        next,
    };
    match levels.push(level) {
        Ok(()) => {}
        Err(_) => return Err(Stop::Memory),
    }
    Ok(())
}

/// The next row of the level, with its path in the folder and in the tree.
pub fn next_row(alloc: Global, level: &mut Level) -> Result<Option<RowPlace>, Memory>
    ensures { IfOk result (NextIs level.old level.new) }
{
    let rows = level.rows.as_slice();
    if level.next >= rows.len() {
        return Ok(None);
    }
    let row = &rows[level.next];
    let host = child_of(alloc, &level.host, &row.name)?;
    let tree = child_of(alloc, &level.tree, &row.name)?;
    let kind = row.kind;
    level.next += 1;
    Ok(Some(RowPlace { kind, host, tree }))
}
