// One row of a tree in a folder, without what is below it.
ghost use Rattle.std.specs.Prelude.{◌≡◌};
ghost use Rattle.fs_model.specs.declared.attr.Kind.TheVariants.{File, Link};
ghost use Rattle.copy_row.specs.Rows.{StopsBy, FaultsBy};
ghost use Rattle.copy_row.specs.Reads.{NeverAsked, DirectoryOut, RowOut};

use crate::bytes_out::bytes_out;
use crate::making::make_row;
use crate::place::RowPlace;
use crate::replies::ask_target;
use crate::stop::Stop;
use crate::totals::count_row;
use copy_laws::host_folder::Folder;
use copy_laws::{Asker, Totals};
use fs_model::{ByteText, Kind};
use std::alloc::Global;

/// Makes a directory of the folder.
fn directory_out<F: Folder>(
    alloc: Global,
    host: &mut F,
    at: &RowPlace,
    totals: &mut Totals,
) -> Result<(), Stop>
    ensures faults { FaultsBy (F.faults host.old) (F.faults host.new) result }
    ensures never { NeverAsked result }
    ensures out { DirectoryOut (F.tree host.old) (F.tree host.new) at.now.host totals.old totals.new result }
{
    let none = ByteText::new(Vec::new(alloc));
    match make_row(alloc, host, &at.host, Kind::Directory, &none) {
        Ok(()) => {}
        Err(stop) => return Err(stop),
    }
    count_row(totals, Kind::Directory, 0);
    Ok(())
}

/// Makes a file of the folder, and copies its bytes.
fn file_out<F: Folder, A: Asker>(
    alloc: Global,
    host: &mut F,
    asker: &mut A,
    at: &RowPlace,
    totals: &mut Totals,
) -> Result<(), Stop>
    requires ready { A.asking.ready asker.old }
    ensures ready { A.asking.ready asker.new }
    ensures faults { FaultsBy (F.faults host.old) (F.faults host.new) result }
    ensures stops { StopsBy (A.asking.stops asker.old) (A.asking.stops asker.new) result }
    ensures out { RowOut A.asking asker.old asker.new (F.tree host.old) (F.tree host.new) File at.now.tree at.now.host totals.old totals.new result }
{
    let none = ByteText::new(Vec::new(alloc));
    match make_row(alloc, host, &at.host, Kind::File, &none) {
        Ok(()) => {}
        Err(stop) => return Err(stop),
    }
    let count = match bytes_out(alloc, host, asker, at) {
        Ok(count) => count,
        Err(stop) => return Err(stop),
    };
    count_row(totals, Kind::File, count);
    Ok(())
}

/// Makes a link of the folder.
fn link_out<F: Folder, A: Asker>(
    alloc: Global,
    host: &mut F,
    asker: &mut A,
    at: &RowPlace,
    totals: &mut Totals,
) -> Result<(), Stop>
    requires ready { A.asking.ready asker.old }
    ensures ready { A.asking.ready asker.new }
    ensures faults { FaultsBy (F.faults host.old) (F.faults host.new) result }
    ensures stops { StopsBy (A.asking.stops asker.old) (A.asking.stops asker.new) result }
    ensures out { RowOut A.asking asker.old asker.new (F.tree host.old) (F.tree host.new) Link at.now.tree at.now.host totals.old totals.new result }
{
    let target = match ask_target(alloc, asker, &at.tree) {
        Ok(target) => target,
        Err(stop) => return Err(stop),
    };
    match make_row(alloc, host, &at.host, Kind::Link, &target) {
        Ok(()) => {}
        Err(stop) => return Err(stop),
    }
    count_row(totals, Kind::Link, 0);
    Ok(())
}

/// Copies one row into the folder without what is below it.
pub fn row_out<F: Folder, A: Asker>(
    alloc: Global,
    host: &mut F,
    asker: &mut A,
    at: &RowPlace,
    totals: &mut Totals,
) -> Result<(), Stop>
    requires ready { A.asking.ready asker.old }
    ensures ready { A.asking.ready asker.new }
    ensures faults { FaultsBy (F.faults host.old) (F.faults host.new) result }
    ensures stops { StopsBy (A.asking.stops asker.old) (A.asking.stops asker.new) result }
    ensures out { RowOut A.asking asker.old asker.new (F.tree host.old) (F.tree host.new) at.now.kind at.now.tree at.now.host totals.old totals.new result }
{
    match at.kind {
        Kind::Directory => directory_out(alloc, host, at, totals),
        Kind::File => file_out(alloc, host, asker, at, totals),
        Kind::Link => link_out(alloc, host, asker, at, totals),
    }
}
