// Requests that make a file, a directory or a link.

use crate::asking::change;
use crate::looking::tell_entry;
use crate::paths::{child_path, copy_of};
use crate::state::State;
use answers::Host;
use fs_model::{ByteText, Command, DIRECTORY_MODE, FILE_MODE, MAX_MODE};
use fuse_messages::{ErrorNumber, RequestHeader};
use std::alloc::Global;

/// The bits of a mode that say what it is of.
const KIND_MASK: u32 = 0o170000;

/// Those of a file.
const FILE_BITS: u32 = 0o100000;

/// What is made: its directory and name, its owner, and its mode where that isn't what a new row has.
#[derive(Clone, Copy)]
struct Making<'a> {
    parent: u64,
    name: &'a [u8],
    uid: u32,
    gid: u32,
    mode: Option<u32>,
}

fn making_of<'a>(header: &RequestHeader, name: &'a [u8], mode: Option<u32>) -> Making<'a> {
    Making {
        parent: header.node,
        name,
        uid: header.uid,
        gid: header.gid,
        mode,
    }
}

/// The mode, where it isn't what a new row has.
fn other_mode(mode: u32, usual: u32) -> Option<u32> {
    let mode = mode & MAX_MODE;
    if mode == usual { None } else { Some(mode) }
}

/// Makes a file of no bytes: the number of its node.
pub(crate) fn make_file<H: Host>(
    alloc: Global,
    host: &mut H,
    state: &mut State,
    header: &RequestHeader,
    mode: u32,
    name: &[u8],
    out: &mut Vec<u8>,
) -> Result<u64, ErrorNumber>
    requires ready { H.hosting.ready host.old }
    ensures ready { H.hosting.ready host.new }
{
    let path = child_path(alloc, state, header.node, name)?;
    let making = making_of(header, name, other_mode(mode, FILE_MODE));
    make(alloc, host, state, &making, &Command::Mkfile(path), out)
}

/// The same where the mode says what is made. What is no file isn't permitted.
pub(crate) fn make_node<H: Host>(
    alloc: Global,
    host: &mut H,
    state: &mut State,
    header: &RequestHeader,
    mode: u32,
    name: &[u8],
    out: &mut Vec<u8>,
) -> Result<(), ErrorNumber>
    requires ready { H.hosting.ready host.old }
    ensures ready { H.hosting.ready host.new }
{
    if mode & KIND_MASK != FILE_BITS {
        return Err(ErrorNumber::NotPermitted);
    }
    let _node = make_file(alloc, host, state, header, mode, name, out)?;
    Ok(())
}

pub(crate) fn make_directory<H: Host>(
    alloc: Global,
    host: &mut H,
    state: &mut State,
    header: &RequestHeader,
    mode: u32,
    name: &[u8],
    out: &mut Vec<u8>,
) -> Result<(), ErrorNumber>
    requires ready { H.hosting.ready host.old }
    ensures ready { H.hosting.ready host.new }
{
    let path = child_path(alloc, state, header.node, name)?;
    let making = making_of(header, name, other_mode(mode, DIRECTORY_MODE));
    let _node = make(alloc, host, state, &making, &Command::Mkdir(path), out)?;
    Ok(())
}

pub(crate) fn make_link<H: Host>(
    alloc: Global,
    host: &mut H,
    state: &mut State,
    header: &RequestHeader,
    name: &[u8],
    target: &[u8],
    out: &mut Vec<u8>,
) -> Result<(), ErrorNumber>
    requires ready { H.hosting.ready host.old }
    ensures ready { H.hosting.ready host.new }
{
    let path = child_path(alloc, state, header.node, name)?;
    let text = ByteText::new(copy_of(alloc, target)?);
    let making = making_of(header, name, None);
    let _node = make(
        alloc,
        host,
        state,
        &making,
        &Command::Symlink(text, path),
        out,
    )?;
    Ok(())
}

/// Asks the command that makes it, sets its owner and mode, and tells the kernel of it. Where any of that fails, it is taken back.
fn make<H: Host>(
    alloc: Global,
    host: &mut H,
    state: &mut State,
    making: &Making<'_>,
    command: &Command,
    out: &mut Vec<u8>,
) -> Result<u64, ErrorNumber>
    requires ready { H.hosting.ready host.old }
    ensures ready { H.hosting.ready host.new }
{
    change(alloc, host, state, command)?;
    match own_and_tell(alloc, host, state, making, out) {
        Ok(node) => Ok(node),
        Err(error) => {
            let is_directory = matches!(command, Command::Mkdir(_));
            let _taken = take_back(alloc, host, state, making, is_directory);
            Err(error)
        }
    }
}

fn own_and_tell<H: Host>(
    alloc: Global,
    host: &mut H,
    state: &mut State,
    making: &Making<'_>,
    out: &mut Vec<u8>,
) -> Result<u64, ErrorNumber>
    requires ready { H.hosting.ready host.old }
    ensures ready { H.hosting.ready host.new }
{
    set_new_owner(alloc, host, state, making)?;
    set_new_mode(alloc, host, state, making)?;
    tell_entry(alloc, host, state, making.parent, making.name, out)
}

/// Who made it owns it. A new row is owned by the user and the group 0.
fn set_new_owner<H: Host>(
    alloc: Global,
    host: &mut H,
    state: &mut State,
    making: &Making<'_>,
) -> Result<(), ErrorNumber>
    requires ready { H.hosting.ready host.old }
    ensures ready { H.hosting.ready host.new }
{
    if making.uid == 0 && making.gid == 0 {
        return Ok(());
    }
    let path = child_path(alloc, state, making.parent, making.name)?;
    change(
        alloc,
        host,
        state,
        &Command::Chown(path, making.uid, making.gid),
    )
}

fn set_new_mode<H: Host>(
    alloc: Global,
    host: &mut H,
    state: &mut State,
    making: &Making<'_>,
) -> Result<(), ErrorNumber>
    requires ready { H.hosting.ready host.old }
    ensures ready { H.hosting.ready host.new }
{
    let Some(mode) = making.mode else {
        return Ok(());
    };
    let path = child_path(alloc, state, making.parent, making.name)?;
    change(alloc, host, state, &Command::Chmod(path, mode))
}

/// Removes what was just made.
fn take_back<H: Host>(
    alloc: Global,
    host: &mut H,
    state: &mut State,
    making: &Making<'_>,
    is_directory: bool,
) -> Result<(), ErrorNumber>
    requires ready { H.hosting.ready host.old }
    ensures ready { H.hosting.ready host.new }
{
    let path = child_path(alloc, state, making.parent, making.name)?;
    let command = if is_directory {
        Command::Rmdir(path)
    } else {
        Command::Rm(path)
    };
    change(alloc, host, state, &command)
}
