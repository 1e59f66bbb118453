// A folder of the host, by paths from it on.
ghost use Rattle.std.specs.Prelude.{◌≡◌, ◌⊎◌, ◌<◌, ◌≤◌, ◌+◌, ◌^◌, ℕ, IfOk, IfSome, OnOk, OnErr, IsTrue, length, take};
ghost use Rattle.std.specs.declared.option.Option.{Option};
ghost use Rattle.outside.specs.Causes.{GetHasCause, RoseBy};
ghost use Rattle.fs_model.specs.Fitting.{is_target};
ghost use Rattle.host_folder.specs.Folders.{HostTree, IsHostTree, RowsRise, AreRowsOf, IsFileAt, IsLinkAt, IsMade, IsAppended, HasTarget};

use block_id::Failed;
use fs_model::{ByteText, Kind, Path, RowList};
use outside::GetFail;
use std::alloc::Global;

/// A folder of the host. Whatever it gives is allowed, and any call may fail. An entry of another kind than the call
/// is for, and a name or a target outside the limits of the tree language, is a fault.
pub trait Folder {
    /// Its tree of kinds and bytes, where it is told.
    ghost tree: { Self → Option HostTree };

    /// How often a call failed.
    ghost faults: { Self → ℕ };

    /// The rows of a directory, by increasing names.
    fn list(&mut self, alloc: Global, path: &Path) -> Result<RowList, GetFail>
        ensures order { IfOk result RowsRise }
        ensures tree { IfSome (tree self.old) IsHostTree }
        ensures ok { IfOk result (λ rows. IfSome (tree self.old) (λ t. AreRowsOf t path.now rows)) }
        ensures same { tree self.new ≡ tree self.old }
        ensures cause { GetHasCause (faults self.old) (faults self.new) result };

    /// Puts bytes of a file from this place on into the piece. How many; none in a piece with room is the file's end.
    fn read(&mut self, path: &Path, from: u64, piece: &mut [u8]) -> Result<usize, Failed>
        ensures bound { IfOk result (λ n. n ≤ length piece.old) }
        ensures far { IfOk result (λ n. 0 < n → from + n ≤ 2 ^ 63) }
        ensures ok { IfOk result (λ n. IfSome (tree self.old) (λ t. IsFileAt t path.now from n piece.old piece.new)) }
        ensures same { tree self.new ≡ tree self.old }
        ensures grows { faults self.old ≤ faults self.new }
        ensures cause { OnErr result (RoseBy 1 (faults self.old) (faults self.new)) }
        ensures quiet { OnOk result (faults self.new ≡ faults self.old) };

    /// A link's target.
    fn link(&mut self, alloc: Global, path: &Path) -> Result<ByteText, GetFail>
        ensures fits { IfOk result (λ text. IsTrue (is_target text)) }
        ensures ok { IfOk result (λ text. IfSome (tree self.old) (λ t. IsLinkAt t path.now text)) }
        ensures same { tree self.new ≡ tree self.old }
        ensures cause { GetHasCause (faults self.old) (faults self.new) result };

    /// Makes a new row of this kind: a directory, a file without bytes, or a link with this target.
    fn make(
        &mut self,
        alloc: Global,
        path: &Path,
        kind: Kind,
        target: &ByteText,
    ) -> Result<(), GetFail>
        requires { HasTarget kind target.now }
        ensures ok { OnOk result (IsMade (tree self.old) (tree self.new) path.now kind target.now) }
        ensures err { OnErr result ((tree self.new ≡ tree self.old) ⊎ IsMade (tree self.old) (tree self.new) path.now kind target.now) }
        ensures cause { GetHasCause (faults self.old) (faults self.new) result };

    /// Puts bytes behind those of a file. Where it fails, some of them from the front on may be there.
    fn append(&mut self, alloc: Global, path: &Path, bytes: &[u8]) -> Result<(), GetFail>
        ensures ok { OnOk result (IsAppended (tree self.old) (tree self.new) path.now bytes.now) }
        ensures err { OnErr result ((tree self.new ≡ tree self.old) ⊎ ((k : ℕ) × IsAppended (tree self.old) (tree self.new) path.now (take k bytes.now))) }
        ensures cause { GetHasCause (faults self.old) (faults self.new) result };
}
