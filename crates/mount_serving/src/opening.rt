// Requests that open and close files.

use crate::asking::change;
use crate::making::make_file;
use crate::removing::remove_left;
use crate::state::State;
use answers::Host;
use fs_model::Command;
use fuse_messages::{ErrorNumber, RequestHeader, put_opened};
use std::alloc::Global;

/// The flag of an opening by which the file is cut to no bytes.
const TRUNCATE: u32 = 0o1000;

/// What the kernel has of the file in its memory it may keep.
const KEEP_CACHE: u32 = 1 << 1;

pub(crate) fn open<H: Host>(
    alloc: Global,
    host: &mut H,
    state: &mut State,
    node: u64,
    flags: u32,
    out: &mut Vec<u8>,
) -> Result<(), ErrorNumber>
    requires ready { H.hosting.ready host.old }
    ensures ready { H.hosting.ready host.new }
{
    if !state.nodes.has(node) {
        return Err(ErrorNumber::Stale);
    }
    put_opened(out, 0, KEEP_CACHE)?;
    if flags & TRUNCATE != 0 {
        let path = state.nodes.path(alloc, node)?;
        change(alloc, host, state, &Command::Truncate(path, 0))?;
    }
    let _opened = state.nodes.open(node);
    Ok(())
}

/// Makes a file and opens it.
pub(crate) fn create<H: Host>(
    alloc: Global,
    host: &mut H,
    state: &mut State,
    header: &RequestHeader,
    mode: u32,
    name: &[u8],
    out: &mut Vec<u8>,
) -> Result<(), ErrorNumber>
    requires ready { H.hosting.ready host.old }
    ensures ready { H.hosting.ready host.new }
{
    let node = make_file(alloc, host, state, header, mode, name, out)?;
    if put_opened(out, 0, KEEP_CACHE).is_err() {
        state.nodes.forget(node, 1);
        return Err(ErrorNumber::NoMemory);
    }
    let _opened = state.nodes.open(node);
    Ok(())
}

/// Closes a file once. The last closing of one that was removed removes it.
pub(crate) fn release<H: Host>(
    alloc: Global,
    host: &mut H,
    state: &mut State,
    node: u64,
) -> Result<(), ErrorNumber>
    requires ready { H.hosting.ready host.old }
    ensures ready { H.hosting.ready host.new }
{
    state.nodes.close(node);
    if !state.nodes.is_left(node) {
        state.nodes.drop_unused(node);
        return Ok(());
    }
    remove_left(alloc, host, state, node)?;
    state.nodes.lose_node(alloc, node);
    Ok(())
}
