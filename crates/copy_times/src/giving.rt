// The attributes of one row of a tree.
ghost use Rattle.std.specs.Prelude.{◌≡◌, ◌≤◌};
ghost use Rattle.fs_model.specs.declared.limits.TheConstants.{MAX_MODE};
ghost use Rattle.copy_row.specs.copy_laws.Ends.{StopCause};
ghost use Rattle.copy_times.specs.Asking.{gifts_at};
ghost use Rattle.copy_times.specs.Giving.{GaveAll, NeverHost};

use crate::asking::ask_change;
use copy_row::copy_laws::{Asker, CopyFail};
use fs_model::{Attr, AttrChange, Path};
use std::alloc::Global;

/// Gives the tree's row its owner, its mode and its moments.
pub fn give<A: Asker>(
    alloc: Global,
    asker: &mut A,
    path: &Path,
    attr: &Attr,
) -> Result<(), CopyFail>
    requires ready { A.asking.ready asker.old }
    requires mode { attr.now.mode ≤ MAX_MODE }
    ensures ready { A.asking.ready asker.new }
    ensures asks { GaveAll A.asking asker.old asker.new (gifts_at path.now attr.now) result }
    ensures stops { StopCause (A.asking.stops asker.old) (A.asking.stops asker.new) result }
    ensures host { NeverHost result }
{
    let owner = AttrChange::Owner(attr.uid, attr.gid);
    match ask_change(alloc, asker, path, owner) {
        Ok(()) => {}
        Err(fail) => return Err(fail),
    }
    match ask_change(alloc, asker, path, AttrChange::Mode(attr.mode)) {
        Ok(()) => {}
        Err(fail) => return Err(fail),
    }
    let moments = AttrChange::Times(attr.atime, attr.mtime);
    ask_change(alloc, asker, path, moments)
}
