// One line.
ghost use Rattle.std.specs.Prelude.{◌≡◌, ◌≤◌};
ghost use Rattle.std.specs.Option.{option_copied};
ghost use Rattle.line_io.specs.Lines.{kept};
ghost use Rattle.line_io.specs.Streams.{stream_of};
ghost use Rattle.session_lines.specs.Driven.{AnsweredOne};

use crate::end::End;
use crate::tell::tell_line;
use answers::script_text::MAX_LINE;
use answers::{Host, TextBuffer};
use block_id::Failed;
use fs_model::Moment;
use line_io::write_all;
use outside::Sink;
use std::alloc::Global;

/// Answers one line, and no more.
pub fn answer_single<H: Host, O: Sink>(
    alloc: Global,
    host: &mut H,
    now: Moment,
    line: &[u8],
    text: &mut TextBuffer,
    output: &mut O,
) -> End
    requires ready { H.hosting.ready host.old }
    ensures ready { H.hosting.ready host.new }
    ensures answered { AnsweredOne H.hosting now host.old host.new line.now (stream_of O.written O.faults output.old output.new) result }
    ensures output_grows { O.faults output.old ≤ O.faults output.new }
    ensures chance { H.hosting.chance host.new ≡ H.hosting.chance host.old }
{
    tell_line(alloc, host, now, short_line(line), text);
    match write_all(output, text.as_slice()) {
        Ok(()) => End::Finished,
        Err(Failed) => End::OutputFault,
    }
}

/// The line, or None for one of more than 1,048,576 bytes.
fn short_line(line: &[u8]) -> Option<&[u8]>
    ensures { option_copied result ≡ kept line.now }
{
    if line.len() > MAX_LINE {
        return None;
    }
    Some(line)
}
