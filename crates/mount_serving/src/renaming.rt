// Requests that rename.

use crate::asking::attributes_at;
use crate::nodes::REMOVED;
use crate::paths::child_path;
use crate::removing::{hide, is_open, move_name};
use crate::state::State;
use answers::Host;
use fuse_messages::{ErrorNumber, Renaming};
use std::alloc::Global;

/// The flag by which nothing may be replaced. Others aren't known.
const NO_REPLACE: u32 = 1;

/// Renames. A file that is replaced while it is open is first moved to the directory of removed ones, and back where the renaming fails.
pub(crate) fn rename<H: Host>(
    alloc: Global,
    host: &mut H,
    state: &mut State,
    parent: u64,
    it: &Renaming<'_>,
) -> Result<(), ErrorNumber>
    requires ready { H.hosting.ready host.old }
    ensures ready { H.hosting.ready host.new }
{
    if it.flags > NO_REPLACE {
        return Err(ErrorNumber::Invalid);
    }
    if it.flags == NO_REPLACE {
        refuse_existing(alloc, host, state, it)?;
    }
    if parent == it.other && it.name == it.new_name {
        let path = child_path(alloc, state, parent, it.name)?;
        let _attributes = attributes_at(alloc, host, state, path)?;
        return Ok(());
    }
    if is_open(state, it.other, it.new_name) {
        return replace_open(alloc, host, state, parent, it);
    }
    move_name(
        alloc,
        host,
        state,
        (parent, it.name),
        (it.other, it.new_name),
    )
}

fn refuse_existing<H: Host>(
    alloc: Global,
    host: &mut H,
    state: &mut State,
    it: &Renaming<'_>,
) -> Result<(), ErrorNumber>
    requires ready { H.hosting.ready host.old }
    ensures ready { H.hosting.ready host.new }
{
    let path = child_path(alloc, state, it.other, it.new_name)?;
    match attributes_at(alloc, host, state, path) {
        Ok(_) => Err(ErrorNumber::Exists),
        Err(ErrorNumber::NoEntry) => Ok(()),
        Err(error) => Err(error),
    }
}

fn replace_open<H: Host>(
    alloc: Global,
    host: &mut H,
    state: &mut State,
    parent: u64,
    it: &Renaming<'_>,
) -> Result<(), ErrorNumber>
    requires ready { H.hosting.ready host.old }
    ensures ready { H.hosting.ready host.new }
{
    let own = hide(alloc, host, state, it.other, it.new_name)?;
    match move_name(
        alloc,
        host,
        state,
        (parent, it.name),
        (it.other, it.new_name),
    ) {
        Ok(()) => Ok(()),
        Err(error) => {
            let _back = move_name(
                alloc,
                host,
                state,
                (REMOVED, own.as_bytes()),
                (it.other, it.new_name),
            );
            Err(error)
        }
    }
}
