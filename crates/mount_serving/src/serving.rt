// The loop: each request is answered before the next is taken.
ghost use Rattle.std.specs.Prelude.{◌≡◌, ◌≤◌, ◌+◌, ◌<◌, IsTrue, drop};
ghost use Rattle.mount_serving.specs.Asking.{Went};
ghost use Rattle.mount_serving.specs.Turns.{TellsBody, TellsError, TellsTurn};

use crate::asking::sync;
use crate::channel::{Stop, first_request, give, next_request};
use crate::removing::clear_removed;
use crate::since::{Asked, Since};
use crate::state::State;
use crate::turns::{Turn, take_turn};
use answers::{Answer, Host, print_answer};
use block_id::Memory;
use fs_model::Moment;
use fuse_messages::{
    ErrorNumber, MAX_WRITE, REPLY_HEADER, RequestHeader, error_reply, finish_reply, start_reply,
    take_header,
};
use std::alloc::Global;
use std::io::{Read, Write};
use std::marker::{Brand, PhantomData};
use std::time::{Clock, SystemTime, UNIX_EPOCH};

/// How serving ended.
#[derive(Clone, Copy, PartialEq, Eq)]
pub enum End {
    Unmounted,
    /// The kernel's requests can't be read.
    Fault,
    /// Memory was refused before the first request.
    Memory,
}

/// Memory that was taken before the first request.
#[derive(Drop)]
struct Buffers {
    request: Vec<u8>,
    reply: Vec<u8>,
    note: Vec<u8>,
}

/// Bytes of a request or a reply beside those that are written or read.
const BESIDE: usize = 8_192;

/// Bytes of a reply at most.
const MOST_REPLY: usize = MAX_WRITE as usize + BESIDE;

/// Bytes of the line that tells a violation.
const NOTE_LEN: usize = 512;

/// Seconds after a change at which it is to be kept.
const KEPT_WITHIN: u64 = 5;

/// What was served, and how serving ended.
pub struct Served<H> {
    pub host: H,
    pub end: End,
}

/// Answers each request of the input before the next is taken, until there are no more: replies go to the output, and a violation is told to `notes`.
/// Want of memory for a request is answered so. A change that no sync kept for 5 seconds is synced behind the reply to the next request.
pub fn serve<H: Host, C: Clock, I: Read, O: Write, E: Write>(
    alloc: Global,
    host: H,
    clock: &C,
    now: Moment,
    input: &mut I,
    output: &mut O,
    notes: &mut E,
) -> Served<H>
    requires ready { H.hosting.ready host }
    ensures ready { H.hosting.ready result.host }
    ensures went { Went H.hosting host result.host }
{
    serve_since::<H, Brand, C, I, O, E>(alloc, host, clock, now, input, output, notes)
}

/// The same, where clauses know of each call what led to it.
fn serve_since<H: Host, S: Since<H>, C: Clock, I: Read, O: Write, E: Write>(
    alloc: Global,
    host: H,
    clock: &C,
    now: Moment,
    input: &mut I,
    output: &mut O,
    notes: &mut E,
) -> Served<H>
    requires ready { H.hosting.ready host }
    requires start { S.start ≡ Some host }
    ensures ready { H.hosting.ready result.host }
    ensures went { Went H.hosting host result.host }
{
    let mut asked: Asked<H, S> = Asked {
        host,
        since: PhantomData,
    };
    let end = serve_asked(alloc, &mut asked, clock, now, input, output, notes);
    let Asked { host, since: _ } = asked;
    Served { host, end }
}

fn serve_asked<H: Host, C: Clock, I: Read, O: Write, E: Write>(
    alloc: Global,
    host: &mut H,
    clock: &C,
    now: Moment,
    input: &mut I,
    output: &mut O,
    notes: &mut E,
) -> End
    requires ready { H.hosting.ready host.old }
    ensures ready { H.hosting.ready host.new }
{
    let (Ok(mut buffers), Ok(mut state)) = (take_memory(alloc), State::new(alloc, now)) else {
        return End::Memory;
    };
    let _cleared = clear_removed(alloc, host, &mut state);
    tell_violation(&mut state, notes, &mut buffers.note);
    let mut next = first_request(clock, input, &mut buffers.request);
    let mut end = End::Fault;
    'turns: for _ in 0..u64::MAX {
        let Ok(count) = next else {
            end = end_of(next);
            break;
        };
        set_clock(clock, &mut state);
        if let Some(last) = answer(alloc, host, &mut state, count, output, &mut buffers) {
            end = last;
            break;
        }
        sync_if_due(alloc, host, &mut state);
        tell_violation(&mut state, notes, &mut buffers.note);
        next = next_request(input, &mut buffers.request);
    }
    end_removed(alloc, host, &mut state);
    tell_violation(&mut state, notes, &mut buffers.note);
    end
}

fn take_memory(alloc: Global) -> Result<Buffers, Memory> {
    let size = MAX_WRITE as usize + BESIDE;
    let mut request = Vec::new(alloc);
    request.resize(size, 0)?;
    Ok(Buffers {
        request,
        reply: Vec::with_capacity(alloc, size)?,
        note: Vec::with_capacity(alloc, NOTE_LEN)?,
    })
}

fn end_of(next: Result<usize, Stop>) -> End {
    match next {
        Err(Stop::Unmounted) => End::Unmounted,
        _ => End::Fault,
    }
}

/// The moment of the next request. Where the clock isn't told, it is that of the one before.
fn set_clock<C: Clock>(clock: &C, state: &mut State) {
    if let Some(now) = moment_now(clock) {
        state.now = now;
    }
}

fn moment_now<C: Clock>(clock: &C) -> Option<Moment> {
    let now = SystemTime::now(clock).ok()?;
    let passed = now.duration_since(UNIX_EPOCH).ok()?;
    Moment::new(passed.as_secs(), passed.subsec_nanos())
}

/// Answers the request of so many bytes of the buffer. How serving ends, where it was the last one; one that isn't whole is a fault.
fn answer<H: Host, O: Write>(
    alloc: Global,
    host: &mut H,
    state: &mut State,
    count: usize,
    output: &mut O,
    buffers: &mut Buffers,
) -> Option<End>
    requires ready { H.hosting.ready host.old }
    ensures ready { H.hosting.ready host.new }
{
    let count = count.min(buffers.request.len());
    let Some((header, body)) = take_header(&buffers.request[..count]) else {
        return Some(End::Fault);
    };
    if header.len as usize != count {
        refuse(output, &header, ErrorNumber::Io);
        return Some(End::Fault);
    }
    if start_reply(&mut buffers.reply).is_err() {
        refuse(output, &header, ErrorNumber::NoMemory);
        return None;
    }
    let turn = take_turn(alloc, host, state, &header, body, &mut buffers.reply);
    give_turn(output, &header, turn, &mut buffers.reply)
}

/// Gives the reply of a turn, with the body behind the header's place. How serving ends, where it was the last one.
fn give_turn<O: Write>(
    output: &mut O,
    header: &RequestHeader,
    turn: Turn,
    out: &mut [u8],
) -> Option<End>
    ensures told { TellsTurn (O.contents output.old) (O.contents output.new) header.now.unique (drop 16 out.old) turn }
{
    match turn {
        Turn::Silence => None,
        Turn::Done => {
            reply(output, header, out);
            None
        }
        Turn::Refused(error) => {
            refuse(output, header, error);
            None
        }
        Turn::Last => {
            reply(output, header, out);
            Some(End::Unmounted)
        }
        Turn::LastRefused(error) => {
            refuse(output, header, error);
            Some(End::Unmounted)
        }
    }
}

/// Gives the reply whose body was written. One that the kernel doesn't take is refused to it, so that nobody waits for it.
fn reply<O: Write>(output: &mut O, header: &RequestHeader, out: &mut [u8])
    ensures { TellsBody (O.contents output.old) (O.contents output.new) header.now.unique (drop 16 out.old) }
{
    if out.len() < REPLY_HEADER || out.len() > MOST_REPLY {
        refuse(output, header, ErrorNumber::Io);
        return;
    }
    finish_reply(out, header.unique);
    if give(output, out) {
        return;
    }
    refuse(output, header, ErrorNumber::Io);
}

fn refuse<O: Write>(output: &mut O, header: &RequestHeader, error: ErrorNumber)
    ensures { TellsError (O.contents output.old) (O.contents output.new) header.now.unique error }
{
    let _is_given = give(output, &error_reply(header.unique, error));
}

/// Removes what is left of files that were removed while they were open.
fn end_removed<H: Host>(alloc: Global, host: &mut H, state: &mut State)
    requires ready { H.hosting.ready host.old }
    ensures ready { H.hosting.ready host.new }
{
    if state.has_removed {
        let _cleared = clear_removed(alloc, host, state);
    }
}

/// Syncs where the first change is some seconds old. One that failed is tried again as many seconds later.
fn sync_if_due<H: Host>(alloc: Global, host: &mut H, state: &mut State)
    requires ready { H.hosting.ready host.old }
    ensures ready { H.hosting.ready host.new }
{
    let Some(first) = state.changed else {
        return;
    };
    if !is_due(first, state.now) {
        return;
    }
    if sync(alloc, host, state).is_err() {
        state.changed = Some(state.now);
    }
}

/// Whether the seconds have passed, or the clock went back.
fn is_due(first: Moment, now: Moment) -> bool
    ensures later { first.secs + 5 ≤ now.secs → IsTrue result }
    ensures back { now.secs < first.secs → IsTrue result }
{
    now.secs() < first.secs() || now.secs() - first.secs() >= KEPT_WITHIN
}

/// Tells a violation once, in memory that was taken before.
fn tell_violation<E: Write>(state: &mut State, notes: &mut E, note: &mut Vec<u8>) {
    let Some(why) = state.violation else {
        return;
    };
    state.violation = None;
    note.clear();
    if note.extend_from_slice(b"cryfs: ").is_ok()
        && print_answer(&Answer::Violation(why), note).is_ok()
    {
        let _told = notes.write_all(note);
    }
}
