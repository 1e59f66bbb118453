// A folder of the host and its attributes, copied into a tree.
ghost use Rattle.std.specs.Prelude.{◌≡◌};
ghost use Rattle.tree_copy.specs.copy_laws.Ends.{HostCause, StopCause};
ghost use Rattle.copy_attributes.specs.Passes.{Asks};
ghost use Rattle.copy_attributes.specs.Imports.{IsAttributedImport};

use copy_times::carry_in;
use copy_times::host_attributes::Attributed;
use fs_model::Path;
use std::alloc::Global;
use tree_copy::copy_laws::{Asker, CopyFail, Totals};
use tree_copy::import;

/// Copies the rows of the folder's root and what is below them to below this path, and gives them the attributes of the
/// folder's rows behind that. None are given where the copy fails.
pub fn import_with_attributes<F: Attributed, A: Asker>(
    alloc: Global,
    host: &mut F,
    asker: &mut A,
    target: &Path,
) -> Result<Totals, CopyFail>
    requires ready { A.asking.ready asker.old }
    ensures ready { A.asking.ready asker.new }
    ensures same { F.Folder.tree host.new ≡ F.Folder.tree host.old }
    ensures host { HostCause (F.Folder.faults host.old) (F.Folder.faults host.new) result }
    ensures stops { StopCause (A.asking.stops asker.old) (A.asking.stops asker.new) result }
    ensures copied { Asks A.asking asker.old asker.new (λ qs. IsAttributedImport (F.Folder.tree host.old) (F.attributes host.new) target.now qs result) }
{
    let totals = match import(alloc, host, asker, target) {
        Ok(totals) => totals,
        Err(fail) => return Err(fail),
    };
    match carry_in(alloc, host, asker, target) {
        Ok(()) => Ok(totals),
        Err(fail) => Err(fail),
    }
}
