// A tree, copied into a folder of the host.
ghost use Rattle.std.specs.Prelude.{◌≡◌, IfOk, IfSome};
ghost use Rattle.outside.specs.Causes.{GetHasCause};
ghost use Rattle.copy_row.specs.host_folder.Folders.{IsHostTree};
ghost use Rattle.copy_row.specs.copy_laws.Ends.{HostCause, StopCause};
ghost use Rattle.copy_row.specs.copy_laws.Exporting.{IsBare};
ghost use Rattle.tree_copy.specs.Exports.{BareIs, ExportRun, OutRun};

use crate::out_steps::{begin_tree, export_next};
use block_id::Memory;
use copy_row::copy_laws::{Asker, CopyFail, Totals};
use copy_row::host_folder::Folder;
use copy_row::{copy_path, no_totals};
use fs_model::{FsError, Path};
use outside::GetFail;
use std::alloc::Global;

/// Whether the folder has no rows.
fn is_bare<F: Folder>(alloc: Global, host: &mut F) -> Result<bool, GetFail>
    ensures same { F.tree host.new ≡ F.tree host.old }
    ensures tree { IfSome (F.tree host.old) IsHostTree }
    ensures cause { GetHasCause (F.faults host.old) (F.faults host.new) result }
    ensures bare { IfOk result (λ bare. IfSome (F.tree host.old) (BareIs bare)) }
{
    let rows = match host.list(alloc, &Path::root(alloc)) {
        Ok(rows) => rows,
        Err(fail) => return Err(fail),
    };
    let count = rows.as_slice().len();
    if count == 0 {
        return Ok(true);
    }
    Ok(false)
}

/// Copies what is below this path into a folder without rows.
fn copy_out<F: Folder, A: Asker>(
    alloc: Global,
    host: &mut F,
    asker: &mut A,
    source: &Path,
) -> Result<Totals, CopyFail>
    requires ready { A.asking.ready asker.old }
    requires tree { IfSome (F.tree host.old) IsHostTree }
    requires bare { IfSome (F.tree host.old) IsBare }
    ensures ready { A.asking.ready asker.new }
    ensures host { HostCause (F.faults host.old) (F.faults host.new) result }
    ensures stops { StopCause (A.asking.stops asker.old) (A.asking.stops asker.new) result }
    ensures copied { OutRun A.asking asker.old asker.new (F.tree host.old) (F.tree host.new) source.now result }
{
    let path = match copy_path(alloc, source) {
        Ok(path) => path,
        Err(Memory) => return Err(CopyFail::Memory),
    };
    let mut levels = Vec::new(alloc);
    match begin_tree(alloc, asker, Path::root(alloc), path, &mut levels) {
        Ok(()) => {}
        Err(fail) => return Err(fail),
    }
    let mut totals = no_totals();
    for _ in 0..u64::MAX {
        match export_next(alloc, host, asker, &mut levels, &mut totals) {
            Ok(true) => {}
            Ok(false) => return Ok(totals),
            Err(fail) => return Err(fail),
        }
    }
    Err(CopyFail::Memory)
}

/// Copies what is below this path into the folder. A folder with rows is refused before anything is asked.
pub fn export<F: Folder, A: Asker>(
    alloc: Global,
    host: &mut F,
    asker: &mut A,
    source: &Path,
) -> Result<Totals, CopyFail>
    requires ready { A.asking.ready asker.old }
    ensures ready { A.asking.ready asker.new }
    ensures host { HostCause (F.faults host.old) (F.faults host.new) result }
    ensures stops { StopCause (A.asking.stops asker.old) (A.asking.stops asker.new) result }
    ensures copied { ExportRun A.asking asker.old asker.new (F.tree host.old) (F.tree host.new) source.now result }
{
    match is_bare(alloc, host) {
        Ok(true) => {}
        Ok(false) => {
            return Err(CopyFail::Refused(Path::root(alloc), FsError::NotEmpty));
        }
        Err(GetFail::Memory) => return Err(CopyFail::Memory),
        Err(GetFail::Failed) => return Err(CopyFail::Host),
    }
    copy_out(alloc, host, asker, source)
}
