// What each request is answered with.
ghost use Rattle.std.specs.Prelude.{◌≡◌, true, IfOk, IsOk};
ghost use Rattle.answers.specs.declared.answer.Answer.TheVariants.{Reply as Replied};
ghost use Rattle.fs_model.specs.declared.command.Command.TheVariants.{Sync};
ghost use Rattle.fs_model.specs.declared.reply.Reply.TheVariants.{Done};
ghost use Rattle.mount_serving.specs.Turns.{IsBetween};

use crate::asking::sync;
use crate::looking::{look_up, read, read_link, tell_attributes};
use crate::making::{make_directory, make_link, make_node};
use crate::opening::{create, open, release};
use crate::removing::{clear_removed, remove_directory, unlink};
use crate::renaming::rename;
use crate::rows::{Listing, open_directory, read_directory};
use crate::setting::{set_attributes, write};
use crate::state::State;
use answers::Host;
use fuse_messages::{
    ErrorNumber, MAJOR, Request, RequestHeader, put_init, put_statistics, read_request,
    take_forgotten,
};
use std::alloc::Global;

/// What a request is answered with.
#[derive(Clone, Copy)]
pub(crate) enum Turn {
    /// The body that was written.
    Done,
    Refused(ErrorNumber),
    /// Nothing.
    Silence,
    /// The body that was written, and it was the last request.
    Last,
    LastRefused(ErrorNumber),
}

/// What the kernel is asked for, where it can: reading by many, cutting with an opening, large writes, rows with attributes, directories in parallel,
/// many pages.
const WANTED: u32 = 1 | 1 << 3 | 1 << 5 | 1 << 13 | 1 << 14 | 1 << 18 | 1 << 22;

/// Answers the request with this header and body, with the reply's body in `out`.
pub(crate) fn take_turn<H: Host>(
    alloc: Global,
    host: &mut H,
    state: &mut State,
    header: &RequestHeader,
    body: &[u8],
    out: &mut Vec<u8>,
) -> Turn
    requires ready { H.hosting.ready host.old }
    ensures ready { H.hosting.ready host.new }
{
    match read_request(header.opcode, body) {
        Some(request) => answer_request(alloc, host, state, header, &request, out),
        None => Turn::Refused(ErrorNumber::Io),
    }
}

/// Answers a request. After a violation each is refused that isn't about beginning and ending, and nothing is asked.
fn answer_request<H: Host>(
    alloc: Global,
    host: &mut H,
    state: &mut State,
    header: &RequestHeader,
    request: &Request<'_>,
    out: &mut Vec<u8>,
) -> Turn
    requires ready { H.hosting.ready host.old }
    ensures ready { H.hosting.ready host.new }
    ensures refused { H.hosting.refuses host.old ≡ true → IsBetween request.now → (result ≡ Turn.Refused ErrorNumber.BadMessage) × (host.new ≡ host.old) }
    ensures last { H.hosting.refuses host.old ≡ true → request.now ≡ Request.Destroy → (result ≡ Turn.LastRefused ErrorNumber.BadMessage) × (host.new ≡ host.old) }
    ensures synced { request.now ≡ Request.Sync → result ≡ Turn.Done → H.hosting.answers host.old state.old.now (Ok Sync) (Replied Done) host.new }
{
    match request {
        Request::Forget(count) => {
            state.nodes.forget(header.node, *count);
            Turn::Silence
        }
        Request::ForgetMany(count, pairs) => {
            forget_many(state, *count, *pairs);
            Turn::Silence
        }
        // (each request is answered before the next is read, so what is to be broken off is done)
        Request::Interrupt => Turn::Silence,
        Request::Destroy => end_turn(alloc, host, state),
        Request::Init(major, ahead, flags) => turn_of(begin(*major, *ahead, *flags, out)),
        _ if host.refuses() => Turn::Refused(ErrorNumber::BadMessage),
        _ => turn_of(fill(alloc, host, state, header, request, out)),
    }
}

fn turn_of(filled: Result<(), ErrorNumber>) -> Turn
    ensures done { result ≡ Turn.Done → IsOk filled }
    ensures refused { (error : ErrorNumber) → filled ≡ Err error → result ≡ Turn.Refused error }
{
    match filled {
        Ok(()) => Turn::Done,
        Err(error) => Turn::Refused(error),
    }
}

fn begin(major: u32, ahead: u32, flags: u32, out: &mut Vec<u8>) -> Result<(), ErrorNumber> {
    if major < MAJOR {
        return Err(ErrorNumber::Invalid);
    }
    put_init(out, ahead, flags & WANTED)?;
    Ok(())
}

/// Has all kept before the last reply.
fn end_turn<H: Host>(alloc: Global, host: &mut H, state: &mut State) -> Turn
    requires ready { H.hosting.ready host.old }
    ensures ready { H.hosting.ready host.new }
    ensures refused { H.hosting.refuses host.old ≡ true → (result ≡ Turn.LastRefused ErrorNumber.BadMessage) × (host.new ≡ host.old) }
{
    if state.has_removed {
        let _cleared = clear_removed(alloc, host, state);
    }
    match sync(alloc, host, state) {
        Ok(()) => Turn::Last,
        Err(error) => Turn::LastRefused(error),
    }
}

fn forget_many(state: &mut State, count: u32, pairs: &[u8]) {
    let mut rest = pairs;
    for _ in 0..count {
        let Some((node, told, behind)) = take_forgotten(rest) else {
            return;
        };
        state.nodes.forget(node, told);
        rest = behind;
    }
}

/// Requests that look, and those of directories.
fn fill<H: Host>(
    alloc: Global,
    host: &mut H,
    state: &mut State,
    header: &RequestHeader,
    request: &Request<'_>,
    out: &mut Vec<u8>,
) -> Result<(), ErrorNumber>
    requires ready { H.hosting.ready host.old }
    ensures ready { H.hosting.ready host.new }
    ensures synced { request.now ≡ Request.Sync → IfOk result (λ _. H.hosting.answers host.old state.old.now (Ok Sync) (Replied Done) host.new) }
{
    let node = header.node;
    match request {
        Request::LookUp(name) => look_up(alloc, host, state, node, *name, out),
        Request::GetAttributes => tell_attributes(alloc, host, state, node, out),
        Request::ReadLink => read_link(alloc, host, state, node, out),
        Request::Read(span) => read(alloc, host, state, node, span, out),
        Request::OpenDirectory => open_directory(alloc, host, state, node, out),
        Request::ReadDirectory(span, plus) => {
            let listing = Listing {
                node,
                span,
                plus: *plus,
            };
            read_directory(alloc, host, state, &listing, out)
        }
        Request::ReleaseDirectory(handle) => {
            state.handles.close(*handle);
            Ok(())
        }
        Request::Statistics => {
            put_statistics(out)?;
            Ok(())
        }
        Request::Flush => Ok(()),
        Request::Link => Err(ErrorNumber::NotPermitted),
        _ => fill_change(alloc, host, state, header, request, out),
    }
}

/// Requests that change.
fn fill_change<H: Host>(
    alloc: Global,
    host: &mut H,
    state: &mut State,
    header: &RequestHeader,
    request: &Request<'_>,
    out: &mut Vec<u8>,
) -> Result<(), ErrorNumber>
    requires ready { H.hosting.ready host.old }
    ensures ready { H.hosting.ready host.new }
    ensures synced { request.now ≡ Request.Sync → IfOk result (λ _. H.hosting.answers host.old state.old.now (Ok Sync) (Replied Done) host.new) }
{
    let node = header.node;
    match request {
        Request::SetAttributes(set) => set_attributes(alloc, host, state, node, set, out),
        Request::Write(span, bytes) => write(alloc, host, state, node, span.offset, *bytes, out),
        Request::Unlink(name) => unlink(alloc, host, state, node, *name),
        Request::RemoveDirectory(name) => remove_directory(alloc, host, state, node, *name),
        Request::Rename(renaming) => rename(alloc, host, state, node, renaming),
        Request::Open(flags) => open(alloc, host, state, node, *flags, out),
        Request::Release => release(alloc, host, state, node),
        Request::Sync => sync(alloc, host, state),
        _ => fill_making(alloc, host, state, header, request, out),
    }
}

/// Requests that make.
fn fill_making<H: Host>(
    alloc: Global,
    host: &mut H,
    state: &mut State,
    header: &RequestHeader,
    request: &Request<'_>,
    out: &mut Vec<u8>,
) -> Result<(), ErrorNumber>
    requires ready { H.hosting.ready host.old }
    ensures ready { H.hosting.ready host.new }
{
    match request {
        Request::Symlink(name, target) => {
            make_link(alloc, host, state, header, *name, *target, out)
        }
        Request::MakeNode(mode, name) => make_node(alloc, host, state, header, *mode, *name, out),
        Request::MakeDirectory(mode, name) => {
            make_directory(alloc, host, state, header, *mode, *name, out)
        }
        Request::Create(mode, name) => create(alloc, host, state, header, *mode, *name, out),
        _ => Err(ErrorNumber::NotImplemented),
    }
}
