// Calls on a folder that is copied into.
ghost use Rattle.std.specs.Prelude.{◌≡◌, ◌⊎◌, ℕ, OnOk, OnErr, take};
ghost use Rattle.copy_laws.specs.host_folder.Folders.{HasTarget, IsMade, IsAppended};
ghost use Rattle.copy_row.specs.Rows.{FaultsBy};
ghost use Rattle.copy_row.specs.Reads.{NeverAsked};

use crate::stop::Stop;
use copy_laws::host_folder::Folder;
use fs_model::{ByteText, Kind, Path};
use outside::GetFail;
use std::alloc::Global;

/// Makes a row of the folder.
pub fn make_row<F: Folder>(
    alloc: Global,
    host: &mut F,
    path: &Path,
    kind: Kind,
    target: &ByteText,
) -> Result<(), Stop>
    requires { HasTarget kind target.now }
    ensures ok { OnOk result (IsMade (F.tree host.old) (F.tree host.new) path.now kind target.now) }
    ensures err { OnErr result ((F.tree host.new ≡ F.tree host.old) ⊎ IsMade (F.tree host.old) (F.tree host.new) path.now kind target.now) }
    ensures faults { FaultsBy (F.faults host.old) (F.faults host.new) result }
    ensures never { NeverAsked result }
{
    match host.make(alloc, path, kind, target) {
        Ok(()) => Ok(()),
        Err(GetFail::Memory) => Err(Stop::Memory),
        Err(GetFail::Failed) => Err(Stop::Host),
    }
}

/// Puts bytes behind those of a file of the folder.
pub fn append_bytes<F: Folder>(
    alloc: Global,
    host: &mut F,
    path: &Path,
    bytes: &[u8],
) -> Result<(), Stop>
    ensures ok { OnOk result (IsAppended (F.tree host.old) (F.tree host.new) path.now bytes.now) }
    ensures err { OnErr result ((F.tree host.new ≡ F.tree host.old) ⊎ ((k : ℕ) × IsAppended (F.tree host.old) (F.tree host.new) path.now (take k bytes.now))) }
    ensures faults { FaultsBy (F.faults host.old) (F.faults host.new) result }
    ensures never { NeverAsked result }
{
    match host.append(alloc, path, bytes) {
        Ok(()) => Ok(()),
        Err(GetFail::Memory) => Err(Stop::Memory),
        Err(GetFail::Failed) => Err(Stop::Host),
    }
}
