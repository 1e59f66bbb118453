// Attributes of rows, new and changed.
ghost use Rattle.std.specs.Prelude.{◌≡◌, []};
ghost use Rattle.fs_model.specs.Tree.{root_row};
ghost use Rattle.fs_model.specs.Step as step;
ghost use Rattle.fs_model.specs.Changes.{changed_by};

use crate::{Attr, DIRECTORY_MODE, Kind, Moment};

/// The attributes of the root.
pub fn root_attr() -> Attr
    ensures { result ≡ root_row.attr }
{
    let Some(beginning) = Moment::new(0, 0) else {
        unreachable!();
    };
    Attr {
        kind: Kind::Directory,
        mode: DIRECTORY_MODE,
        uid: 0,
        gid: 0,
        atime: beginning,
        mtime: beginning,
        ctime: beginning,
    }
}

/// The attributes of a new row.
pub fn new_attr(kind: Kind, mode: u32, now: Moment) -> Attr
    ensures { result ≡ (step.new_row kind mode now []).attr }
{
    Attr {
        kind,
        mode,
        uid: 0,
        gid: 0,
        atime: now,
        mtime: now,
        ctime: now,
    }
}

/// New attributes.
#[derive(Clone, Copy)]
pub enum AttrChange {
    Mode(u32),
    /// The uid and the gid.
    Owner(u32, u32),
    /// The atime and the mtime.
    Times(Moment, Moment),
}

/// The attributes after a change.
pub fn changed(attr: Attr, change: AttrChange, now: Moment) -> Attr
    ensures { result ≡ changed_by change now attr }
{
    match change {
        AttrChange::Mode(mode) => Attr {
            mode,
            ctime: now,
            ..attr
        },
        AttrChange::Owner(uid, gid) => Attr {
            uid,
            gid,
            ctime: now,
            ..attr
        },
        AttrChange::Times(atime, mtime) => Attr {
            atime,
            mtime,
            ctime: now,
            ..attr
        },
    }
}
