// Input and output in memory: their pieces, the room of an output, and the calls that are made to fail.
use crate::stories::{Order, tell};
use memory_outside::{MemorySink, MemorySource};
use outside::{Failed, Sink, Source};
use std::alloc::{AllocError, Global};
use std::test::Fail;

/// Input and output, and the piece into which the next read goes.
#[derive(Drop)]
pub struct Streams {
    source: MemorySource,
    sink: MemorySink,
    piece: [u8; 4],
}

/// Pieces of up to three bytes of `abcde`, and the second and the fourth call fail.
fn small_source(alloc: Global) -> Result<MemorySource, AllocError> {
    let bytes = b"abcde".to_vec(alloc)?;
    Ok(MemorySource::new(bytes, 3, vec![in alloc; 2, 4]?))
}

/// Pieces of up to three bytes, room for five, and the second call fails.
fn small_sink(alloc: Global) -> Option<MemorySink> {
    let fails = vec![in alloc; 2].ok()?;
    MemorySink::new(alloc, 3, 5, fails).ok()
}

/// That input, that output, and a piece of zeros.
pub fn new_streams(alloc: Global) -> Option<Streams> {
    Some(Streams {
        source: small_source(alloc).ok()?,
        sink: small_sink(alloc)?,
        piece: [0; 4],
    })
}

fn read<S: Source>(source: &mut S, piece: &mut [u8; 4]) -> Result<usize, Failed> {
    source.read(piece)
}

fn write<S: Sink>(sink: &mut S, piece: &[u8]) -> Result<usize, Failed> {
    sink.write(piece)
}

/// Whether a read or a write is of so many bytes, or fails where the order says that.
fn is_answer(answer: Result<usize, Failed>, order: &Order<'_>) -> bool {
    match answer {
        Ok(n) => order.subject.parse().ok() == Some(n),
        Err(Failed) => order.name.starts_with("fails"),
    }
}

/// Whether an order on input or output comes out, where it is one: a read of four bytes gives so many, `gives 3: abc\0`, or
/// fails, `fails-to-give: abc\0`, and the piece holds these then; a write takes so many, `takes 3: abcd`, or fails,
/// `fails-to-take: d`; all that was written, `written: abcd`.
pub fn on_streams(streams: &mut Streams, order: &Order<'_>) -> Option<bool> {
    let text = order.text.as_bytes();
    match order.name {
        "gives" | "fails-to-give" => {
            let answer = read(&mut streams.source, &mut streams.piece);
            Some(is_answer(answer, order) && streams.piece.as_slice() == text)
        }
        "takes" | "fails-to-take" => Some(is_answer(write(&mut streams.sink, text), order)),
        "written" => Some(streams.sink.written() == text),
        _ => None,
    }
}

const STORIES: &str = "# input comes in pieces, and fails as listed
gives 3: abc\0
fails-to-give: abc\0
gives 2: dec\0
fails-to-give: dec\0
gives 0: dec\0
# output is taken in pieces until it is full
takes 3: abcd
fails-to-take: d
takes 2: def
fails-to-take: f
takes 0:
written: abcde
";

#[test]
fn streams_in_memory(rt: HostRuntime) -> Result<(), Fail> {
    tell(&rt, "memory", STORIES)
}
