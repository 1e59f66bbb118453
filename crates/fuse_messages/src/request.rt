// Requests.

use crate::fields::take_name;
use crate::operations as operation;
use crate::request_structures::{take_rename, take_set_attributes, take_span};
use crate::structures::{SetAttributes, Span};
use byte_fields::{take_bytes, take_u32, take_u64};

/// What a name of one directory is to become in another, or there.
#[derive(Clone, Copy)]
pub struct Renaming<'a> {
    pub name: &'a [u8],
    /// The other directory's node.
    pub other: u64,
    pub new_name: &'a [u8],
    pub flags: u32,
}

/// What is asked of a node.
#[derive(Clone, Copy)]
pub enum Request<'a> {
    LookUp(&'a [u8]),
    /// How many tellings.
    Forget(u64),
    GetAttributes,
    SetAttributes(SetAttributes),
    ReadLink,
    /// The name, and the target.
    Symlink(&'a [u8], &'a [u8]),
    /// The mode, and the name.
    MakeNode(u32, &'a [u8]),
    /// The mode, and the name.
    MakeDirectory(u32, &'a [u8]),
    Unlink(&'a [u8]),
    RemoveDirectory(&'a [u8]),
    Rename(Renaming<'a>),
    /// A second name of a node.
    Link,
    /// The flags.
    Open(u32),
    Read(Span),
    /// Where, and the bytes.
    Write(Span, &'a [u8]),
    Statistics,
    Release,
    Flush,
    Sync,
    /// The major number, how far the kernel reads ahead, and what it can.
    Init(u32, u32, u32),
    OpenDirectory,
    /// Where, and whether attributes are wanted.
    ReadDirectory(Span, bool),
    /// The handle.
    ReleaseDirectory(u64),
    /// The mode, and the name.
    Create(u32, &'a [u8]),
    Interrupt,
    /// How many, and the pairs of a node and a number of tellings.
    ForgetMany(u32, &'a [u8]),
    Destroy,
    /// One that isn't answered.
    Unknown,
}

/// The request with this operation and body. None where the body hasn't its form.
pub fn read_request(opcode: u32, body: &[u8]) -> Option<Request<'_>> {
    match opcode {
        operation::LOOK_UP => Some(Request::LookUp(take_name(body)?.0)),
        operation::UNLINK => Some(Request::Unlink(take_name(body)?.0)),
        operation::REMOVE_DIRECTORY => Some(Request::RemoveDirectory(take_name(body)?.0)),
        operation::SYMLINK | operation::MAKE_NODE | operation::MAKE_DIRECTORY | operation::CREATE =>
            read_making(opcode, body),
        operation::RENAME | operation::RENAME_WITH_FLAGS => read_renaming(opcode, body),
        operation::READ
        | operation::WRITE
        | operation::READ_DIRECTORY
        | operation::READ_DIRECTORY_PLUS => read_span(opcode, body),
        operation::SET_ATTRIBUTES => Some(Request::SetAttributes(take_set_attributes(body)?.0)),
        operation::OPEN => Some(Request::Open(take_u32(body)?.0)),
        operation::RELEASE_DIRECTORY => Some(Request::ReleaseDirectory(take_u64(body)?.0)),
        operation::FORGET => Some(Request::Forget(take_u64(body)?.0)),
        operation::FORGET_MANY => {
            let (count, rest) = take_u32(body)?;
            Some(Request::ForgetMany(count, take_bytes(rest, 4)?.1))
        }
        operation::INIT => read_init(body),
        _ => Some(read_bare(opcode)),
    }
}

/// A request whose body says nothing that is used.
fn read_bare(opcode: u32) -> Request<'static> {
    match opcode {
        operation::GET_ATTRIBUTES => Request::GetAttributes,
        operation::READ_LINK => Request::ReadLink,
        operation::LINK => Request::Link,
        operation::STATISTICS => Request::Statistics,
        operation::RELEASE => Request::Release,
        operation::FLUSH => Request::Flush,
        operation::SYNC_FILE | operation::SYNC_DIRECTORY | operation::SYNC_ALL => Request::Sync,
        operation::OPEN_DIRECTORY => Request::OpenDirectory,
        operation::INTERRUPT => Request::Interrupt,
        operation::DESTROY => Request::Destroy,
        _ => Request::Unknown,
    }
}

/// A request that makes a row.
fn read_making(opcode: u32, body: &[u8]) -> Option<Request<'_>> {
    if opcode == operation::SYMLINK {
        let (name, rest) = take_name(body)?;
        return Some(Request::Symlink(name, take_name(rest)?.0));
    }
    if opcode == operation::CREATE {
        // (flags, which say how it is opened, and behind the mode the mask that the kernel has applied)
        let (_flags, rest) = take_u32(body)?;
        let (mode, rest) = take_u32(rest)?;
        let (_mask, rest) = take_u64(rest)?;
        return Some(Request::Create(mode, take_name(rest)?.0));
    }
    let (mode, rest) = take_u32(body)?;
    if opcode == operation::MAKE_DIRECTORY {
        let (_mask, rest) = take_u32(rest)?;
        return Some(Request::MakeDirectory(mode, take_name(rest)?.0));
    }
    // (the device and the mask)
    let (_device, rest) = take_bytes(rest, 12)?;
    Some(Request::MakeNode(mode, take_name(rest)?.0))
}

fn read_renaming(opcode: u32, body: &[u8]) -> Option<Request<'_>> {
    let (other, flags, rest) = if opcode == operation::RENAME {
        let (other, rest) = take_u64(body)?;
        (other, 0, rest)
    } else {
        let (head, rest) = take_rename(body)?;
        (head.directory, head.flags, rest)
    };
    let (name, rest) = take_name(rest)?;
    let (new_name, _rest) = take_name(rest)?;
    Some(Request::Rename(Renaming {
        name,
        other,
        new_name,
        flags,
    }))
}

/// A request that begins with a handle, a place and a number of bytes.
fn read_span(opcode: u32, body: &[u8]) -> Option<Request<'_>> {
    let (span, rest) = take_span(body)?;
    match opcode {
        operation::READ => Some(Request::Read(span)),
        operation::WRITE => Some(Request::Write(span, take_bytes(rest, span.size as usize)?.0)),
        operation::READ_DIRECTORY => Some(Request::ReadDirectory(span, false)),
        _ => Some(Request::ReadDirectory(span, true)),
    }
}

fn read_init(body: &[u8]) -> Option<Request<'_>> {
    let (major, rest) = take_u32(body)?;
    let (_minor, rest) = take_u32(rest)?;
    let (ahead, rest) = take_u32(rest)?;
    Some(Request::Init(major, ahead, take_u32(rest)?.0))
}

/// The next node of a forgetting of many, how often it is forgotten, and the bytes behind.
pub fn take_forgotten(bytes: &[u8]) -> Option<(u64, u64, &[u8])> {
    let (node, rest) = take_u64(bytes)?;
    let (count, rest) = take_u64(rest)?;
    Some((node, count, rest))
}
