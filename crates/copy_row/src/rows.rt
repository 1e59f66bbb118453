// One row of a folder, without what is below it.
ghost use Rattle.std.specs.Prelude.{◌≡◌, ◌∷◌, [], IfSome, OnOk};
ghost use Rattle.fs_model.specs.declared.command.Command.TheVariants.{Mkdir, Mkfile};
ghost use Rattle.copy_laws.specs.Ends.{counted};
ghost use Rattle.fs_model.specs.declared.attr.Kind.TheVariants.{File};
ghost use Rattle.copy_row.specs.Rows.{Asks, StopsBy, FaultsBy, NeverHost, HasFile, HasLink, LinkCopied, IsPlaced, RowCopied};

use crate::asking::ask_done;
use crate::bytes::copy_bytes;
use crate::paths::copy_path;
use crate::place::RowPlace;
use crate::stop::Stop;
use block_id::Memory;
use copy_laws::host_folder::Folder;
use copy_laws::{Asker, Totals};
use fs_model::{Command, Kind, Path};
use outside::GetFail;
use std::alloc::Global;

/// Makes a directory at this path.
fn make_directory<A: Asker>(
    alloc: Global,
    asker: &mut A,
    to: &Path,
    totals: &mut Totals,
) -> Result<(), Stop>
    requires ready { A.asking.ready asker.old }
    ensures ready { A.asking.ready asker.new }
    ensures asks { Asks A.asking asker.old asker.new to.now (Mkdir to.now ∷ []) result }
    ensures stops { StopsBy (A.asking.stops asker.old) (A.asking.stops asker.new) result }
    ensures counts { OnOk result (totals.new ≡ counted totals.old (Mkdir to.now ∷ [])) }
    ensures host { NeverHost result }
{
    let path = match copy_path(alloc, to) {
        Ok(path) => path,
        Err(Memory) => return Err(Stop::Memory),
    };
    ask_done(alloc, asker, &Command::Mkdir(path), totals)
}

/// Makes a file without bytes at this path.
pub fn make_file<A: Asker>(
    alloc: Global,
    asker: &mut A,
    to: &Path,
    totals: &mut Totals,
) -> Result<(), Stop>
    requires ready { A.asking.ready asker.old }
    ensures ready { A.asking.ready asker.new }
    ensures asks { Asks A.asking asker.old asker.new to.now (Mkfile to.now ∷ []) result }
    ensures stops { StopsBy (A.asking.stops asker.old) (A.asking.stops asker.new) result }
    ensures counts { OnOk result (totals.new ≡ counted totals.old (Mkfile to.now ∷ [])) }
    ensures host { NeverHost result }
{
    let path = match copy_path(alloc, to) {
        Ok(path) => path,
        Err(Memory) => return Err(Stop::Memory),
    };
    ask_done(alloc, asker, &Command::Mkfile(path), totals)
}

/// Copies a link.
fn copy_link<F: Folder, A: Asker>(
    alloc: Global,
    host: &mut F,
    asker: &mut A,
    at: &RowPlace,
    totals: &mut Totals,
) -> Result<(), Stop>
    requires ready { A.asking.ready asker.old }
    requires told { IfSome (F.tree host.old) (λ t. HasLink t at.now.host) }
    ensures ready { A.asking.ready asker.new }
    ensures same { F.tree host.new ≡ F.tree host.old }
    ensures faults { FaultsBy (F.faults host.old) (F.faults host.new) result }
    ensures stops { StopsBy (A.asking.stops asker.old) (A.asking.stops asker.new) result }
    ensures copied { LinkCopied A.asking asker.old asker.new (F.tree host.old) at.now.host at.now.tree totals.old totals.new result }
{
    let target = match host.link(alloc, &at.host) {
        Ok(target) => target,
        Err(GetFail::Memory) => return Err(Stop::Memory),
        Err(GetFail::Failed) => return Err(Stop::Host),
    };
    let path = match copy_path(alloc, &at.tree) {
        Ok(path) => path,
        Err(Memory) => return Err(Stop::Memory),
    };
    ask_done(alloc, asker, &Command::Symlink(target, path), totals)
}

/// Copies a file.
fn copy_file<F: Folder, A: Asker>(
    alloc: Global,
    host: &mut F,
    asker: &mut A,
    at: &RowPlace,
    totals: &mut Totals,
) -> Result<(), Stop>
    requires ready { A.asking.ready asker.old }
    requires told { IfSome (F.tree host.old) (λ t. HasFile t at.now.host) }
    ensures ready { A.asking.ready asker.new }
    ensures same { F.tree host.new ≡ F.tree host.old }
    ensures faults { FaultsBy (F.faults host.old) (F.faults host.new) result }
    ensures stops { StopsBy (A.asking.stops asker.old) (A.asking.stops asker.new) result }
    ensures copied { RowCopied A.asking asker.old asker.new (F.tree host.old) File at.now.host at.now.tree totals.old totals.new result }
{
    match make_file(alloc, asker, &at.tree, totals) {
        Ok(()) => copy_bytes(alloc, host, asker, at, totals),
        Err(stop) => Err(stop),
    }
}

/// Copies one row without what is below it.
pub fn copy_row<F: Folder, A: Asker>(
    alloc: Global,
    host: &mut F,
    asker: &mut A,
    at: &RowPlace,
    totals: &mut Totals,
) -> Result<(), Stop>
    requires ready { A.asking.ready asker.old }
    requires told { IfSome (F.tree host.old) (λ t. IsPlaced t at.now.host at.now.kind) }
    ensures ready { A.asking.ready asker.new }
    ensures same { F.tree host.new ≡ F.tree host.old }
    ensures faults { FaultsBy (F.faults host.old) (F.faults host.new) result }
    ensures stops { StopsBy (A.asking.stops asker.old) (A.asking.stops asker.new) result }
    ensures copied { RowCopied A.asking asker.old asker.new (F.tree host.old) at.now.kind at.now.host at.now.tree totals.old totals.new result }
{
    match at.kind {
        Kind::Directory => make_directory(alloc, asker, &at.tree, totals),
        Kind::File => copy_file(alloc, host, asker, at, totals),
        Kind::Link => copy_link(alloc, host, asker, at, totals),
    }
}
