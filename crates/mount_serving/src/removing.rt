// Requests that remove. The tree has no file without a name: one that is removed while it is open is moved to a directory of the mount's own, and
// removed when it is closed. What a stop left there the next mount removes.
ghost use Rattle.std.specs.Prelude.{◌≡◌, true};

use crate::asking::{ask, change};
use crate::nodes::REMOVED;
use crate::paths::child_path;
use crate::state::State;
use answers::Host;
use fs_model::{Command, Kind, Name, Reply, RowList};
use fuse_messages::ErrorNumber;
use std::alloc::Global;

pub(crate) fn unlink<H: Host>(
    alloc: Global,
    host: &mut H,
    state: &mut State,
    parent: u64,
    name: &[u8],
) -> Result<(), ErrorNumber>
    requires ready { H.hosting.ready host.old }
    ensures ready { H.hosting.ready host.new }
{
    if is_open(state, parent, name) {
        let _own = hide(alloc, host, state, parent, name)?;
        return Ok(());
    }
    let path = child_path(alloc, state, parent, name)?;
    change(alloc, host, state, &Command::Rm(path))?;
    state.nodes.lose(parent, name);
    Ok(())
}

pub(crate) fn remove_directory<H: Host>(
    alloc: Global,
    host: &mut H,
    state: &mut State,
    parent: u64,
    name: &[u8],
) -> Result<(), ErrorNumber>
    requires ready { H.hosting.ready host.old }
    ensures ready { H.hosting.ready host.new }
{
    let path = child_path(alloc, state, parent, name)?;
    change(alloc, host, state, &Command::Rmdir(path))?;
    state.nodes.lose(parent, name);
    Ok(())
}

/// Whether this name's node is open.
pub(crate) fn is_open(state: &State, parent: u64, name: &[u8]) -> bool {
    match state.nodes.number(parent, name) {
        Some(node) => state.nodes.is_open(node),
        None => false,
    }
}

/// Moves an open file to the directory of removed ones: its name there.
pub(crate) fn hide<H: Host>(
    alloc: Global,
    host: &mut H,
    state: &mut State,
    parent: u64,
    name: &[u8],
) -> Result<String, ErrorNumber>
    requires ready { H.hosting.ready host.old }
    ensures ready { H.hosting.ready host.new }
{
    make_removed(alloc, host, state)?;
    state.removed = state.removed.saturating_add(1);
    let number = state.removed;
    let Ok(own) = format!(in alloc; "{number}") else {
        return Err(ErrorNumber::NoMemory);
    };
    move_name(
        alloc,
        host,
        state,
        (parent, name),
        (REMOVED, own.as_bytes()),
    )?;
    Ok(own)
}

/// Moves a name of one directory to another, or there: in the tree, and then for the kernel's nodes, for which memory was taken before.
pub(crate) fn move_name<H: Host>(
    alloc: Global,
    host: &mut H,
    state: &mut State,
    from: (u64, &[u8]),
    to: (u64, &[u8]),
) -> Result<(), ErrorNumber>
    requires ready { H.hosting.ready host.old }
    ensures ready { H.hosting.ready host.new }
{
    let copies = state.nodes.copies(alloc, to.0, to.1)?;
    let old = child_path(alloc, state, from.0, from.1)?;
    let new = child_path(alloc, state, to.0, to.1)?;
    change(alloc, host, state, &Command::Mv(old, new))?;
    state.nodes.rename(from.0, from.1, to.0, copies);
    Ok(())
}

/// Makes the directory of removed files, where it isn't there.
fn make_removed<H: Host>(alloc: Global, host: &mut H, state: &mut State) -> Result<(), ErrorNumber>
    requires ready { H.hosting.ready host.old }
    ensures ready { H.hosting.ready host.new }
{
    if state.has_removed {
        return Ok(());
    }
    let path = state.nodes.path(alloc, REMOVED)?;
    match change(alloc, host, state, &Command::Mkdir(path)) {
        Ok(()) | Err(ErrorNumber::Exists) => {
            state.has_removed = true;
            Ok(())
        }
        Err(error) => Err(error),
    }
}

/// Removes a file that was removed before, now that it is closed.
pub(crate) fn remove_left<H: Host>(
    alloc: Global,
    host: &mut H,
    state: &mut State,
    node: u64,
) -> Result<(), ErrorNumber>
    requires ready { H.hosting.ready host.old }
    ensures ready { H.hosting.ready host.new }
{
    let path = state.nodes.path(alloc, node)?;
    change(alloc, host, state, &Command::Rm(path))
}

/// Removes the directory of removed files with all files in it, where it is there.
pub(crate) fn clear_removed<H: Host>(
    alloc: Global,
    host: &mut H,
    state: &mut State,
) -> Result<(), ErrorNumber>
    requires ready { H.hosting.ready host.old }
    ensures ready { H.hosting.ready host.new }
    ensures refused { H.hosting.refuses host.old ≡ true → host.new ≡ host.old }
{
    let path = state.nodes.path(alloc, REMOVED)?;
    let Reply::Rows(rows) = ask(alloc, host, state, &Command::List(path))? else {
        return Err(ErrorNumber::Io);
    };
    state.has_removed = true;
    clear_rows(alloc, host, state, &rows)?;
    let path = state.nodes.path(alloc, REMOVED)?;
    change(alloc, host, state, &Command::Rmdir(path))?;
    state.has_removed = false;
    Ok(())
}

fn clear_rows<H: Host>(
    alloc: Global,
    host: &mut H,
    state: &mut State,
    rows: &RowList,
) -> Result<(), ErrorNumber>
    requires ready { H.hosting.ready host.old }
    ensures ready { H.hosting.ready host.new }
{
    let rows = rows.as_slice();
    'rows: for i in 0..rows.len() {
        let row = &rows[i];
        clear_row(alloc, host, state, row.kind, &row.name)?;
    }
    Ok(())
}

fn clear_row<H: Host>(
    alloc: Global,
    host: &mut H,
    state: &mut State,
    kind: Kind,
    name: &Name,
) -> Result<(), ErrorNumber>
    requires ready { H.hosting.ready host.old }
    ensures ready { H.hosting.ready host.new }
{
    if matches!(kind, Kind::Directory) {
        return Ok(());
    }
    let path = child_path(alloc, state, REMOVED, name.as_slice())?;
    change(alloc, host, state, &Command::Rm(path))
}
