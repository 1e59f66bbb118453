// A folder of the host, copied into a tree.
ghost use Rattle.std.specs.Prelude.{◌≡◌};
ghost use Rattle.copy_row.specs.copy_laws.Ends.{HostCause, StopCause};
ghost use Rattle.tree_copy.specs.Copies.{ImportRun};

use crate::levels::enter;
use crate::steps::copy_next;
use copy_row::copy_laws::{Asker, CopyFail, Totals};
use copy_row::host_folder::Folder;
use copy_row::no_totals;
use fs_model::Path;
use outside::GetFail;
use std::alloc::Global;

/// Copies the rows of the folder's root and what is below them to below this path. Nothing is asked for a folder
/// without rows.
pub fn import<F: Folder, A: Asker>(
    alloc: Global,
    host: &mut F,
    asker: &mut A,
    target: &Path,
) -> Result<Totals, CopyFail>
    requires ready { A.asking.ready asker.old }
    ensures ready { A.asking.ready asker.new }
    ensures same { F.tree host.new ≡ F.tree host.old }
    ensures host { HostCause (F.faults host.old) (F.faults host.new) result }
    ensures stops { StopCause (A.asking.stops asker.old) (A.asking.stops asker.new) result }
    ensures copied { ImportRun A.asking asker.old asker.new (F.tree host.old) target.now result }
{
    let mut levels = Vec::new(alloc);
    match enter(alloc, host, Path::root(alloc), target, &mut levels) {
        Ok(()) => {}
        Err(GetFail::Memory) => return Err(CopyFail::Memory),
        Err(GetFail::Failed) => return Err(CopyFail::Host),
    }
    let mut totals = no_totals();
    for _ in 0..u64::MAX {
        match copy_next(alloc, host, asker, &mut levels, &mut totals) {
            Ok(true) => {}
            Ok(false) => return Ok(totals),
            Err(fail) => return Err(fail),
        }
    }
    Err(CopyFail::Memory)
}
