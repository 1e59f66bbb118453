// Requests that set attributes, or write.

use crate::asking::{attributes_at, change};
use crate::looking::tell_attributes;
use crate::paths::copy_of;
use crate::state::State;
use answers::Host;
use fs_model::{ByteText, Command, MAX_MODE, Moment};
use fuse_messages::{ErrorNumber, MAX_WRITE, SetAttributes, put_written};
use std::alloc::Global;

// Which of the attributes are to be set.

const MODE: u32 = 1;

const USER: u32 = 1 << 1;

const GROUP: u32 = 1 << 2;

const SIZE: u32 = 1 << 3;

const ATIME: u32 = 1 << 4;

const MTIME: u32 = 1 << 5;

const ATIME_NOW: u32 = 1 << 7;

const MTIME_NOW: u32 = 1 << 8;

/// Seconds from here on stand for moments before 1970, which the tree hasn't.
const BEFORE_1970: u64 = 1 << 63;

/// Sets what is to be set, one after another, and tells what the node is then.
pub(crate) fn set_attributes<H: Host>(
    alloc: Global,
    host: &mut H,
    state: &mut State,
    node: u64,
    set: &SetAttributes,
    out: &mut Vec<u8>,
) -> Result<(), ErrorNumber>
    requires ready { H.hosting.ready host.old }
    ensures ready { H.hosting.ready host.new }
{
    set_size(alloc, host, state, node, set)?;
    set_mode(alloc, host, state, node, set)?;
    set_owner(alloc, host, state, node, set)?;
    set_times(alloc, host, state, node, set)?;
    tell_attributes(alloc, host, state, node, out)
}

fn set_size<H: Host>(
    alloc: Global,
    host: &mut H,
    state: &mut State,
    node: u64,
    set: &SetAttributes,
) -> Result<(), ErrorNumber>
    requires ready { H.hosting.ready host.old }
    ensures ready { H.hosting.ready host.new }
{
    if set.valid & SIZE == 0 {
        return Ok(());
    }
    let path = state.nodes.path(alloc, node)?;
    change(alloc, host, state, &Command::Truncate(path, set.size))
}

fn set_mode<H: Host>(
    alloc: Global,
    host: &mut H,
    state: &mut State,
    node: u64,
    set: &SetAttributes,
) -> Result<(), ErrorNumber>
    requires ready { H.hosting.ready host.old }
    ensures ready { H.hosting.ready host.new }
{
    if set.valid & MODE == 0 {
        return Ok(());
    }
    let path = state.nodes.path(alloc, node)?;
    change(
        alloc,
        host,
        state,
        &Command::Chmod(path, set.mode & MAX_MODE),
    )
}

fn set_owner<H: Host>(
    alloc: Global,
    host: &mut H,
    state: &mut State,
    node: u64,
    set: &SetAttributes,
) -> Result<(), ErrorNumber>
    requires ready { H.hosting.ready host.old }
    ensures ready { H.hosting.ready host.new }
{
    if set.valid & (USER | GROUP) == 0 {
        return Ok(());
    }
    let path = state.nodes.path(alloc, node)?;
    let (old, _) = attributes_at(alloc, host, state, path)?;
    let uid = chosen(set.valid & USER != 0, set.uid, old.uid);
    let gid = chosen(set.valid & GROUP != 0, set.gid, old.gid);
    let path = state.nodes.path(alloc, node)?;
    change(alloc, host, state, &Command::Chown(path, uid, gid))
}

fn chosen(is_set: bool, new: u32, old: u32) -> u32 {
    if is_set { new } else { old }
}

fn set_times<H: Host>(
    alloc: Global,
    host: &mut H,
    state: &mut State,
    node: u64,
    set: &SetAttributes,
) -> Result<(), ErrorNumber>
    requires ready { H.hosting.ready host.old }
    ensures ready { H.hosting.ready host.new }
{
    if set.valid & (ATIME | MTIME) == 0 {
        return Ok(());
    }
    let path = state.nodes.path(alloc, node)?;
    let (old, _) = attributes_at(alloc, host, state, path)?;
    let atime = atime_to_set(set, old.atime, state.now)?;
    let mtime = mtime_to_set(set, old.mtime, state.now)?;
    let path = state.nodes.path(alloc, node)?;
    change(alloc, host, state, &Command::Utime(path, atime, mtime))
}

fn atime_to_set(set: &SetAttributes, old: Moment, now: Moment) -> Result<Moment, ErrorNumber> {
    if set.valid & ATIME == 0 {
        return Ok(old);
    }
    if set.valid & ATIME_NOW != 0 {
        return Ok(now);
    }
    moment_of(set.times.atime, set.times.atime_nanos)
}

fn mtime_to_set(set: &SetAttributes, old: Moment, now: Moment) -> Result<Moment, ErrorNumber> {
    if set.valid & MTIME == 0 {
        return Ok(old);
    }
    if set.valid & MTIME_NOW != 0 {
        return Ok(now);
    }
    moment_of(set.times.mtime, set.times.mtime_nanos)
}

fn moment_of(secs: u64, nanos: u32) -> Result<Moment, ErrorNumber> {
    if secs >= BEFORE_1970 {
        return Err(ErrorNumber::Invalid);
    }
    match Moment::new(secs, nanos) {
        Some(moment) => Ok(moment),
        None => Err(ErrorNumber::Invalid),
    }
}

/// Writes the bytes, all or none.
pub(crate) fn write<H: Host>(
    alloc: Global,
    host: &mut H,
    state: &mut State,
    node: u64,
    from: u64,
    bytes: &[u8],
    out: &mut Vec<u8>,
) -> Result<(), ErrorNumber>
    requires ready { H.hosting.ready host.old }
    ensures ready { H.hosting.ready host.new }
{
    if bytes.len() > MAX_WRITE as usize {
        return Err(ErrorNumber::Invalid);
    }
    let path = state.nodes.path(alloc, node)?;
    let text = ByteText::new(copy_of(alloc, bytes)?);
    change(alloc, host, state, &Command::Write(path, from, text))?;
    put_written(out, bytes.len() as u32)?;
    Ok(())
}
