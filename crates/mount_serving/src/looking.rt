// Requests that look: names, attributes, targets of links and contents.

use crate::asking::{ask, attributes_at};
use crate::attributes::{entry_of, node_attributes};
use crate::paths::{child_path, is_own};
use crate::state::State;
use answers::Host;
use fs_model::{Command, Reply};
use fuse_messages::{ErrorNumber, Span, put_entry, put_kept_attributes};
use std::alloc::Global;

/// Tells the kernel of a name: the number of its node.
pub(crate) fn tell_entry<H: Host>(
    alloc: Global,
    host: &mut H,
    state: &mut State,
    parent: u64,
    name: &[u8],
    out: &mut Vec<u8>,
) -> Result<u64, ErrorNumber>
    requires ready { H.hosting.ready host.old }
    ensures ready { H.hosting.ready host.new }
{
    let path = child_path(alloc, state, parent, name)?;
    let (attr, size) = attributes_at(alloc, host, state, path)?;
    let node = state.nodes.tell(alloc, parent, name)?;
    if put_entry(out, &entry_of(node, &attr, size)).is_err() {
        state.nodes.forget(node, 1);
        return Err(ErrorNumber::NoMemory);
    }
    Ok(node)
}

pub(crate) fn look_up<H: Host>(
    alloc: Global,
    host: &mut H,
    state: &mut State,
    parent: u64,
    name: &[u8],
    out: &mut Vec<u8>,
) -> Result<(), ErrorNumber>
    requires ready { H.hosting.ready host.old }
    ensures ready { H.hosting.ready host.new }
{
    if is_own(parent, name) {
        return Err(ErrorNumber::NoEntry);
    }
    let _node = tell_entry(alloc, host, state, parent, name, out)?;
    Ok(())
}

/// Tells the kernel a node's attributes.
pub(crate) fn tell_attributes<H: Host>(
    alloc: Global,
    host: &mut H,
    state: &mut State,
    node: u64,
    out: &mut Vec<u8>,
) -> Result<(), ErrorNumber>
    requires ready { H.hosting.ready host.old }
    ensures ready { H.hosting.ready host.new }
{
    let path = state.nodes.path(alloc, node)?;
    let (attr, size) = attributes_at(alloc, host, state, path)?;
    put_kept_attributes(out, &node_attributes(node, &attr, size))?;
    Ok(())
}

pub(crate) fn read_link<H: Host>(
    alloc: Global,
    host: &mut H,
    state: &mut State,
    node: u64,
    out: &mut Vec<u8>,
) -> Result<(), ErrorNumber>
    requires ready { H.hosting.ready host.old }
    ensures ready { H.hosting.ready host.new }
{
    let path = state.nodes.path(alloc, node)?;
    match ask(alloc, host, state, &Command::Readlink(path))? {
        Reply::Target(bytes) => append(out, bytes.as_slice()),
        _ => Err(ErrorNumber::Io),
    }
}

/// Reads just so many bytes as are asked for, or up to the end: the kernel takes fewer for the end.
pub(crate) fn read<H: Host>(
    alloc: Global,
    host: &mut H,
    state: &mut State,
    node: u64,
    span: &Span,
    out: &mut Vec<u8>,
) -> Result<(), ErrorNumber>
    requires ready { H.hosting.ready host.old }
    ensures ready { H.hosting.ready host.new }
{
    let path = state.nodes.path(alloc, node)?;
    let command = Command::Read(path, span.offset, u64::from(span.size));
    match ask(alloc, host, state, &command)? {
        Reply::Content(bytes) => append(out, bytes.as_slice()),
        _ => Err(ErrorNumber::Io),
    }
}

fn append(out: &mut Vec<u8>, bytes: &[u8]) -> Result<(), ErrorNumber> {
    match out.extend_from_slice(bytes) {
        Ok(()) => Ok(()),
        Err(_) => Err(ErrorNumber::NoMemory),
    }
}
