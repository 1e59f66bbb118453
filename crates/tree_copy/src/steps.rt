// One row more of a copy.
ghost use Rattle.std.specs.Prelude.{◌≡◌, IfSome, OnOk};
ghost use Rattle.copy_row.specs.copy_laws.Ends.{HostCause, StopCause};
ghost use Rattle.copy_row.specs.Rows.{IsPlaced};
ghost use Rattle.tree_copy.specs.Levels.{AreKnown, IsDeeper};
ghost use Rattle.tree_copy.specs.Copies.{Steps, StepsAt, fail_of};

use crate::levels::{Level, enter, next_row};
use block_id::Memory;
use copy_row::copy_laws::{Asker, CopyFail, Totals};
use copy_row::host_folder::Folder;
use copy_row::{RowPlace, Stop, copy_row, is_short};
use fs_model::{Kind, Path};
use outside::GetFail;
use std::alloc::Global;

pub fn fail_at(stop: Stop, path: Path) -> CopyFail
    ensures { result ≡ fail_of stop path }
{
    match stop {
        Stop::Memory => CopyFail::Memory,
        Stop::Host => CopyFail::Host,
        Stop::Stopped => CopyFail::Stopped,
        Stop::Refused(error) => CopyFail::Refused(path, error),
    }
}

/// Copies the row, and begins the directory that it is.
fn copy_at<F: Folder, A: Asker>(
    alloc: Global,
    host: &mut F,
    asker: &mut A,
    at: RowPlace,
    levels: &mut Vec<Level>,
    totals: &mut Totals,
) -> Result<(), CopyFail>
    requires ready { A.asking.ready asker.old }
    requires told { IfSome (F.tree host.old) (λ t. IsPlaced t at.host at.kind) }
    ensures ready { A.asking.ready asker.new }
    ensures same { F.tree host.new ≡ F.tree host.old }
    ensures host { HostCause (F.faults host.old) (F.faults host.new) result }
    ensures stops { StopCause (A.asking.stops asker.old) (A.asking.stops asker.new) result }
    ensures levels { OnOk result (IsDeeper at.host levels.old.items levels.new.items) }
    ensures steps { StepsAt A.asking asker.old asker.new (F.tree host.old) at levels.old.items levels.new.items totals.old totals.new result }
{
    if !is_short(&at.tree) {
        return Err(CopyFail::LongPath(at.tree));
    }
    match copy_row(alloc, host, asker, &at, totals) {
        Ok(()) => {}
        Err(stop) => return Err(fail_at(stop, at.tree)),
    }
    match at.kind {
        Kind::Directory => {}
        Kind::File => return Ok(()),
        Kind::Link => return Ok(()),
    }
    match enter(alloc, host, at.host, &at.tree, levels) {
        Ok(()) => {}
        Err(GetFail::Memory) => return Err(CopyFail::Memory),
        Err(GetFail::Failed) => return Err(CopyFail::Host),
    }
    Ok(())
}

/// Copies the next row of the directory that was begun last, and begins the directory that it is. Whether that isn't all.
pub fn copy_next<F: Folder, A: Asker>(
    alloc: Global,
    host: &mut F,
    asker: &mut A,
    levels: &mut Vec<Level>,
    totals: &mut Totals,
) -> Result<bool, CopyFail>
    requires ready { A.asking.ready asker.old }
    requires told { IfSome (F.tree host.old) (λ t. AreKnown t levels.old.items) }
    ensures ready { A.asking.ready asker.new }
    ensures same { F.tree host.new ≡ F.tree host.old }
    ensures host { HostCause (F.faults host.old) (F.faults host.new) result }
    ensures stops { StopCause (A.asking.stops asker.old) (A.asking.stops asker.new) result }
    ensures steps { Steps A.asking asker.old asker.new (F.tree host.old) levels.old.items levels.new.items totals.old totals.new result }
{
    let mut level = match levels.pop() {
        Some(level) => level,
        None => return Ok(false),
    };
    let at = match next_row(alloc, &mut level) {
        Ok(Some(at)) => at,
        Ok(None) => return Ok(true),
        Err(Memory) => return Err(CopyFail::Memory),
    };
    match levels.push(level) {
        Ok(()) => {}
        Err(_) => return Err(CopyFail::Memory),
    }
    match copy_at(alloc, host, asker, at, levels, totals) {
        Ok(()) => {}
        Err(fail) => return Err(fail),
    }
    Ok(true)
}
