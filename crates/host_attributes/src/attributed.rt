// A folder of the host whose rows have attributes.
ghost use Rattle.std.specs.Prelude.{◌≡◌, ◌⊎◌, IfOk, IfSome, OnOk, OnErr};
ghost use Rattle.std.specs.declared.option.Option.{Option};
ghost use Rattle.fs_model.specs.Tree.{Tree};
ghost use Rattle.host_attributes.specs.Attributes.{AreWithin, IsSet, rows_in};
ghost use Rattle.outside.specs.Causes.{GetHasCause};

use crate::row::AttributedRow;
use fs_model::{Attr, Path};
use host_folder::Folder;
use outside::GetFail;
use std::alloc::Global;

/// A folder of the host whose rows have attributes. Whatever it gives is allowed, and any call may fail.
pub trait Attributed: Folder {
    /// Its tree with the attributes of each row, where it is told.
    ghost attributes: { Self → Option Tree };

    /// The rows of a directory with their attributes, by increasing names. A moment before 1970 is given as the first one.
    fn list_attributes(&mut self, alloc: Global, path: &Path) -> Result<Vec<AttributedRow>, GetFail>
        ensures ok { IfOk result (λ rows. IfSome (attributes self.old) (λ t. rows.items ≡ rows_in t path.now)) }
        ensures within { IfOk result (λ rows. AreWithin rows.items) }
        ensures same { attributes self.new ≡ attributes self.old }
        ensures tree { Self.tree self.new ≡ Self.tree self.old }
        ensures cause { GetHasCause (Self.faults self.old) (Self.faults self.new) result };

    /// Gives a row this mode, this owner, and these moments of access and change. Its kind and its ctime aren't set. What the
    /// user of the run may not set, and what the system can't set of a link, may be passed over where nothing is told.
    fn set_attributes(&mut self, alloc: Global, path: &Path, attr: Attr) -> Result<(), GetFail>
        ensures ok { OnOk result (IsSet (attributes self.old) (attributes self.new) path.now attr) }
        ensures err { OnErr result ((attributes self.new ≡ attributes self.old) ⊎ IsSet (attributes self.old) (attributes self.new) path.now attr) }
        ensures tree { Self.tree self.new ≡ Self.tree self.old }
        ensures cause { GetHasCause (Self.faults self.old) (Self.faults self.new) result };
}
