// A tree with its attributes, copied into a folder of the host.
ghost use Rattle.std.specs.Prelude.{◌≡◌};
ghost use Rattle.tree_copy.specs.copy_laws.Ends.{HostCause, StopCause};
ghost use Rattle.copy_attributes.specs.Passes.{Asks};
ghost use Rattle.copy_attributes.specs.Exports.{IsAttributedExport};

use copy_times::carry_out;
use copy_times::host_attributes::Attributed;
use fs_model::Path;
use std::alloc::Global;
use tree_copy::copy_laws::{Asker, CopyFail, Totals};
use tree_copy::export;

/// Copies what is below this path into the folder, and sets the attributes of the folder's rows behind that. None are set
/// where the copy fails. A folder with rows is refused before anything is asked.
pub fn export_with_attributes<F: Attributed, A: Asker>(
    alloc: Global,
    host: &mut F,
    asker: &mut A,
    source: &Path,
) -> Result<Totals, CopyFail>
    requires ready { A.asking.ready asker.old }
    ensures ready { A.asking.ready asker.new }
    ensures host { HostCause (F.Folder.faults host.old) (F.Folder.faults host.new) result }
    ensures stops { StopCause (A.asking.stops asker.old) (A.asking.stops asker.new) result }
    ensures copied { Asks A.asking asker.old asker.new (λ qs. IsAttributedExport (F.Folder.tree host.old) (F.Folder.tree host.new) (F.attributes host.new) source.now qs result) }
{
    let totals = match export(alloc, host, asker, source) {
        Ok(totals) => totals,
        Err(fail) => return Err(fail),
    };
    match carry_out(alloc, host, asker, source) {
        Ok(()) => Ok(totals),
        Err(fail) => Err(fail),
    }
}
