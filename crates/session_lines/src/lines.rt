// The lines of an input, each answered into an output before the next is taken.
ghost use Rattle.std.specs.Prelude.{◌≡◌, ◌≤◌, true, IfNone, MatchOption};
ghost use Rattle.outside.specs.Streams.{appends, Ends};
ghost use Rattle.line_io.specs.Reading.{coming, total};
ghost use Rattle.line_io.specs.Streams.{stream_of};
ghost use Rattle.session_lines.specs.Driven.{Took, Stopped, IsNearer, NeitherFalls, Served};

use crate::end::End;
use crate::tell::tell_line;
use answers::{Host, TextBuffer};
use block_id::Failed;
use fs_model::Moment;
use line_io::{LineReader, write_all};
use outside::{Sink, Source};
use std::alloc::Global;

/// Takes the next line and answers it. None where it was answered, else how the lines ended.
fn answer_next<H: Host, I: Source, O: Sink>(
    alloc: Global,
    host: &mut H,
    now: Moment,
    reader: &mut LineReader,
    text: &mut TextBuffer,
    input: &mut I,
    output: &mut O,
) -> Option<End>
    requires ready { H.hosting.ready host.old }
    requires ended { reader.old.ended ≡ true → Ends (coming reader.old.ahead (I.rest input.old)) }
    ensures ready { H.hosting.ready host.new }
    ensures turn { MatchOption result
        (Took H.hosting now host.old host.new (coming reader.old.ahead (I.rest input.old))
        (coming reader.new.ahead (I.rest input.new)) text.new
        (stream_of I.rest I.faults input.old input.new) (stream_of O.written O.faults output.old output.new))
        (λ end. Stopped H.hosting now host.old host.new (coming reader.old.ahead (I.rest input.old))
        (coming reader.new.ahead (I.rest input.new)) reader.new.taken
        (stream_of I.rest I.faults input.old input.new) (stream_of O.written O.faults output.old output.new) text.new end) }
    ensures nearer { IfNone result (IsNearer reader.old reader.new (I.rest input.new)) }
    ensures counted { total reader.new.taken (I.rest input.new) ≡ total reader.old.taken (I.rest input.old) }
    ensures grows { NeitherFalls (stream_of I.rest I.faults input.old input.new)
        (stream_of O.written O.faults output.old output.new) }
    ensures chance { H.hosting.chance host.new ≡ H.hosting.chance host.old }
{
    match reader.next_line(input) {
        Ok(true) => {}
        Ok(false) => return Some(End::Finished),
        Err(Failed) => return Some(End::InputFault),
    }
    tell_line(alloc, host, now, reader.line(), text);
    match write_all(output, text.as_slice()) {
        Ok(()) => None,
        Err(Failed) => Some(End::OutputFault),
    }
}

/// Answers each line of the input before it takes the next, and says how they ended. The reader has taken the lines
/// before, from the same input.
pub fn answer_lines<H: Host, I: Source, O: Sink>(
    alloc: Global,
    host: &mut H,
    now: Moment,
    reader: &mut LineReader,
    text: &mut TextBuffer,
    input: &mut I,
    output: &mut O,
) -> End
    requires ready { H.hosting.ready host.old }
    requires ended { reader.old.ended ≡ true → Ends (coming reader.old.ahead (I.rest input.old)) }
    ensures ready { H.hosting.ready host.new }
    ensures served { Served H.hosting now host.old host.new reader.old.taken (coming reader.old.ahead (I.rest input.old))
        (stream_of I.rest I.faults input.old input.new)
        (stream_of O.written O.faults output.old output.new) result }
    ensures input_grows { I.faults input.old ≤ I.faults input.new }
    ensures output_grows { O.faults output.old ≤ O.faults output.new }
    ensures chance { H.hosting.chance host.new ≡ H.hosting.chance host.old }
{
    'turns: loop {
        match answer_next(alloc, host, now, reader, text, input, output) {
            None => {}
            Some(end) => return end,
        }
    }
}
