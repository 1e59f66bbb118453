// The attributes of a tree's rows, carried out to a folder.
ghost use Rattle.std.specs.Prelude.{◌≡◌, ◌⊎◌, [], OnOk, OnErr};
ghost use Rattle.copy_row.specs.copy_laws.Ends.{HostCause, StopCause};
ghost use Rattle.host_attributes.specs.Attributes.{IsSet};
ghost use Rattle.copy_times.specs.Taking.{NeverAsked, TookBelow, TookRow, TookRows, TookUnder};

use crate::looking::ask_attributes;
use crate::paths::{MOST_DEEP, child_paths, too_deep};
use block_id::Memory;
use copy_row::copy_laws::{Asker, CopyFail};
use fs_model::{Attr, Kind, Path};
use host_attributes::{Attributed, AttributedRow};
use outside::GetFail;
use std::alloc::Global;

/// Gives the folder's rows the attributes that the tree's rows below this path have.
pub fn carry_out<F: Attributed, A: Asker>(
    alloc: Global,
    host: &mut F,
    asker: &mut A,
    source: &Path,
) -> Result<(), CopyFail>
    requires ready { A.asking.ready asker.old }
    ensures ready { A.asking.ready asker.new }
    ensures tree { F.Folder.tree host.new ≡ F.Folder.tree host.old }
    ensures host { HostCause (F.Folder.faults host.old) (F.Folder.faults host.new) result }
    ensures stops { StopCause (A.asking.stops asker.old) (A.asking.stops asker.new) result }
    ensures took { TookBelow A.asking asker.old asker.new (F.attributes host.old) (F.attributes host.new) [] source.now MOST_DEEP result }
{
    let root = Path::root(alloc);
    take_below(alloc, host, asker, &root, source, MOST_DEEP)
}

/// Sets the attributes of a row of the folder.
fn set_row<F: Attributed>(
    alloc: Global,
    host: &mut F,
    path: &Path,
    attr: Attr,
) -> Result<(), CopyFail>
    ensures ok { OnOk result (IsSet (F.attributes host.old) (F.attributes host.new) path.now attr) }
    ensures err { OnErr result ((F.attributes host.new ≡ F.attributes host.old) ⊎ IsSet (F.attributes host.old) (F.attributes host.new) path.now attr) }
    ensures tree { F.Folder.tree host.new ≡ F.Folder.tree host.old }
    ensures host { HostCause (F.Folder.faults host.old) (F.Folder.faults host.new) result }
    ensures never { NeverAsked result }
{
    match host.set_attributes(alloc, path, attr) {
        Ok(()) => Ok(()),
        Err(GetFail::Memory) => Err(CopyFail::Memory),
        Err(GetFail::Failed) => Err(CopyFail::Host),
    }
}

/// Sets the attributes of all that is below the directory at these paths.
#[cycle(take)]
fn take_below<F: Attributed, A: Asker>(
    alloc: Global,
    host: &mut F,
    asker: &mut A,
    from: &Path,
    to: &Path,
    depth: u16,
) -> Result<(), CopyFail>
    requires ready { A.asking.ready asker.old }
    ensures ready { A.asking.ready asker.new }
    ensures tree { F.Folder.tree host.new ≡ F.Folder.tree host.old }
    ensures host { HostCause (F.Folder.faults host.old) (F.Folder.faults host.new) result }
    ensures stops { StopCause (A.asking.stops asker.old) (A.asking.stops asker.new) result }
    ensures took { TookBelow A.asking asker.old asker.new (F.attributes host.old) (F.attributes host.new) from.now to.now depth result }
{
    if depth == 0 {
        return Err(too_deep(alloc, to));
    }
    let rows = match ask_attributes(alloc, asker, to) {
        Ok(rows) => rows,
        Err(fail) => return Err(fail),
    };
    take_rows(alloc, host, asker, &rows, from, to, depth - 1)
}

/// Sets the attributes of these rows of a directory, each behind what is below it.
#[cycle(take)]
fn take_rows<F: Attributed, A: Asker>(
    alloc: Global,
    host: &mut F,
    asker: &mut A,
    rows: &[AttributedRow],
    from: &Path,
    to: &Path,
    depth: u16,
) -> Result<(), CopyFail>
    requires ready { A.asking.ready asker.old }
    ensures ready { A.asking.ready asker.new }
    ensures tree { F.Folder.tree host.new ≡ F.Folder.tree host.old }
    ensures host { HostCause (F.Folder.faults host.old) (F.Folder.faults host.new) result }
    ensures stops { StopCause (A.asking.stops asker.old) (A.asking.stops asker.new) result }
    ensures took { TookRows A.asking asker.old asker.new (F.attributes host.old) (F.attributes host.new) rows.now rows.now from.now to.now depth result }
{
    for row in rows {
        match take_row(alloc, host, asker, row, from, to, depth) {
            Ok(()) => {}
            Err(fail) => return Err(fail),
        }
    }
    Ok(())
}

/// Sets the attributes of all that is below a row, and then those of the row.
#[cycle(take)]
fn take_row<F: Attributed, A: Asker>(
    alloc: Global,
    host: &mut F,
    asker: &mut A,
    row: &AttributedRow,
    from: &Path,
    to: &Path,
    depth: u16,
) -> Result<(), CopyFail>
    requires ready { A.asking.ready asker.old }
    ensures ready { A.asking.ready asker.new }
    ensures tree { F.Folder.tree host.new ≡ F.Folder.tree host.old }
    ensures host { HostCause (F.Folder.faults host.old) (F.Folder.faults host.new) result }
    ensures stops { StopCause (A.asking.stops asker.old) (A.asking.stops asker.new) result }
    ensures took { TookRow A.asking asker.old asker.new (F.attributes host.old) (F.attributes host.new) row.now from.now to.now depth result }
{
    let (from, to) = match child_paths(alloc, from, to, &row.name) {
        Ok(paths) => paths,
        Err(Memory) => return Err(CopyFail::Memory),
    };
    match take_under(alloc, host, asker, row.attr.kind, &from, &to, depth) {
        Ok(()) => {}
        Err(fail) => return Err(fail),
    }
    set_row(alloc, host, &from, row.attr)
}

/// Sets the attributes of what is below a row of this kind: only below a directory there is any.
#[cycle(take)]
fn take_under<F: Attributed, A: Asker>(
    alloc: Global,
    host: &mut F,
    asker: &mut A,
    kind: Kind,
    from: &Path,
    to: &Path,
    depth: u16,
) -> Result<(), CopyFail>
    requires ready { A.asking.ready asker.old }
    ensures ready { A.asking.ready asker.new }
    ensures tree { F.Folder.tree host.new ≡ F.Folder.tree host.old }
    ensures host { HostCause (F.Folder.faults host.old) (F.Folder.faults host.new) result }
    ensures stops { StopCause (A.asking.stops asker.old) (A.asking.stops asker.new) result }
    ensures took { TookUnder A.asking asker.old asker.new (F.attributes host.old) (F.attributes host.new) kind from.now to.now depth result }
{
    match kind {
        Kind::Directory => take_below(alloc, host, asker, from, to, depth),
        Kind::File => Ok(()),
        Kind::Link => Ok(()),
    }
}
