// The attributes of a folder's rows, carried into a tree.
ghost use Rattle.std.specs.Prelude.{◌≡◌, ◌≤◌, IfSome, []};
ghost use Rattle.std.specs.List.{All, Contains};
ghost use Rattle.copy_row.specs.copy_laws.Ends.{HostCause, StopCause};
ghost use Rattle.fs_model.specs.declared.limits.TheConstants.{MAX_MODE};
ghost use Rattle.host_attributes.specs.Attributes.{rows_in, AreWithin};
ghost use Rattle.copy_times.specs.Giving.{GaveBelow, GaveRow, GaveRows, GaveUnder};

use crate::giving::give;
use crate::paths::{MOST_DEEP, child_paths, too_deep};
use block_id::Memory;
use copy_row::copy_laws::{Asker, CopyFail};
use fs_model::{Kind, Path};
use host_attributes::{Attributed, AttributedRow};
use outside::GetFail;
use std::alloc::Global;

/// Gives the tree's rows below this path the attributes that the folder's rows have.
pub fn carry_in<F: Attributed, A: Asker>(
    alloc: Global,
    host: &mut F,
    asker: &mut A,
    target: &Path,
) -> Result<(), CopyFail>
    requires ready { A.asking.ready asker.old }
    ensures ready { A.asking.ready asker.new }
    ensures tree { F.Folder.tree host.new ≡ F.Folder.tree host.old }
    ensures same { F.attributes host.new ≡ F.attributes host.old }
    ensures host { HostCause (F.Folder.faults host.old) (F.Folder.faults host.new) result }
    ensures stops { StopCause (A.asking.stops asker.old) (A.asking.stops asker.new) result }
    ensures gave { GaveBelow A.asking asker.old asker.new (F.attributes host.old) [] target.now MOST_DEEP result }
{
    let root = Path::root(alloc);
    give_below(alloc, host, asker, &root, target, MOST_DEEP)
}

/// Gives attributes to all that is below the directory at these paths.
#[cycle(give)]
fn give_below<F: Attributed, A: Asker>(
    alloc: Global,
    host: &mut F,
    asker: &mut A,
    from: &Path,
    to: &Path,
    depth: u16,
) -> Result<(), CopyFail>
    requires ready { A.asking.ready asker.old }
    ensures ready { A.asking.ready asker.new }
    ensures tree { F.Folder.tree host.new ≡ F.Folder.tree host.old }
    ensures same { F.attributes host.new ≡ F.attributes host.old }
    ensures host { HostCause (F.Folder.faults host.old) (F.Folder.faults host.new) result }
    ensures stops { StopCause (A.asking.stops asker.old) (A.asking.stops asker.new) result }
    ensures gave { GaveBelow A.asking asker.old asker.new (F.attributes host.old) from.now to.now depth result }
{
    if depth == 0 {
        return Err(too_deep(alloc, to));
    }
    let rows = match host.list_attributes(alloc, from) {
        Ok(rows) => rows,
        Err(GetFail::Memory) => return Err(CopyFail::Memory),
        Err(GetFail::Failed) => return Err(CopyFail::Host),
    };
    give_rows(alloc, host, asker, &rows, from, to, depth - 1)
}

/// Gives attributes to these rows of a directory, each behind what is below it.
#[cycle(give)]
fn give_rows<F: Attributed, A: Asker>(
    alloc: Global,
    host: &mut F,
    asker: &mut A,
    rows: &[AttributedRow],
    from: &Path,
    to: &Path,
    depth: u16,
) -> Result<(), CopyFail>
    requires ready { A.asking.ready asker.old }
    requires listed { IfSome (F.attributes host.old) (λ t. rows.now ≡ rows_in t from.now) }
    requires within { AreWithin rows.now }
    ensures ready { A.asking.ready asker.new }
    ensures tree { F.Folder.tree host.new ≡ F.Folder.tree host.old }
    ensures same { F.attributes host.new ≡ F.attributes host.old }
    ensures host { HostCause (F.Folder.faults host.old) (F.Folder.faults host.new) result }
    ensures stops { StopCause (A.asking.stops asker.old) (A.asking.stops asker.new) result }
    ensures gave { GaveRows A.asking asker.old asker.new (F.attributes host.old) rows.now from.now to.now depth result }
{
    for row in rows {
        match give_row(alloc, host, asker, row, from, to, depth) {
            Ok(()) => {}
            Err(fail) => return Err(fail),
        }
    }
    Ok(())
}

/// Gives attributes to all that is below a row, and then to the row.
#[cycle(give)]
fn give_row<F: Attributed, A: Asker>(
    alloc: Global,
    host: &mut F,
    asker: &mut A,
    row: &AttributedRow,
    from: &Path,
    to: &Path,
    depth: u16,
) -> Result<(), CopyFail>
    requires ready { A.asking.ready asker.old }
    requires listed { IfSome (F.attributes host.old) (λ t. Contains (rows_in t from.now) row.now) }
    requires within { row.now.attr.mode ≤ MAX_MODE }
    ensures ready { A.asking.ready asker.new }
    ensures tree { F.Folder.tree host.new ≡ F.Folder.tree host.old }
    ensures same { F.attributes host.new ≡ F.attributes host.old }
    ensures host { HostCause (F.Folder.faults host.old) (F.Folder.faults host.new) result }
    ensures stops { StopCause (A.asking.stops asker.old) (A.asking.stops asker.new) result }
    ensures gave { GaveRow A.asking asker.old asker.new (F.attributes host.old) row.now from.now to.now depth result }
{
    let (from, to) = match child_paths(alloc, from, to, &row.name) {
        Ok(paths) => paths,
        Err(Memory) => return Err(CopyFail::Memory),
    };
    match give_under(alloc, host, asker, row.attr.kind, &from, &to, depth) {
        Ok(()) => {}
        Err(fail) => return Err(fail),
    }
    give(alloc, asker, &to, &row.attr)
}

/// Gives attributes to what is below a row of this kind: only below a directory there is any.
#[cycle(give)]
fn give_under<F: Attributed, A: Asker>(
    alloc: Global,
    host: &mut F,
    asker: &mut A,
    kind: Kind,
    from: &Path,
    to: &Path,
    depth: u16,
) -> Result<(), CopyFail>
    requires ready { A.asking.ready asker.old }
    ensures ready { A.asking.ready asker.new }
    ensures tree { F.Folder.tree host.new ≡ F.Folder.tree host.old }
    ensures same { F.attributes host.new ≡ F.attributes host.old }
    ensures host { HostCause (F.Folder.faults host.old) (F.Folder.faults host.new) result }
    ensures stops { StopCause (A.asking.stops asker.old) (A.asking.stops asker.new) result }
    ensures gave { GaveUnder A.asking asker.old asker.new (F.attributes host.old) kind from.now to.now depth result }
{
    match kind {
        Kind::Directory => give_below(alloc, host, asker, from, to, depth),
        Kind::File => Ok(()),
        Kind::Link => Ok(()),
    }
}
