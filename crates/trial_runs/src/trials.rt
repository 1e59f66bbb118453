// Runs on a new plain tree.
ghost use Rattle.std.specs.Prelude.{◌≡◌, ◌≤◌};
ghost use Rattle.session_lines.specs.line_io.Streams.{stream_of};
ghost use Rattle.trial_runs.specs.Runs.{Tried, GeneratedOnPlain, status_of};

use crate::trial::Trial;
use answers::TextBuffer;
use fs_model::Moment;
use outside::{Sink, Source};
use plain_tree::PlainTree;
use run_status::Status;
use session_lines::line_io::LineReader;
use session_lines::{End, answer_generated, answer_lines};
use std::alloc::Global;

/// The lines of the input on a new plain tree.
pub fn try_lines<I: Source, O: Sink>(
    alloc: Global,
    now: Moment,
    input: &mut I,
    output: &mut O,
) -> Status
    ensures tried { Tried now
        (stream_of I.rest I.faults input.old input.new)
        (stream_of O.written O.faults output.old output.new) result }
    ensures input_grows { I.faults input.old ≤ I.faults input.new }
    ensures output_grows { O.faults output.old ≤ O.faults output.new }
{
    let Ok(mut reader) = LineReader::new(alloc) else {
        return Status::Memory;
    };
    let Ok(mut text) = TextBuffer::new(alloc) else {
        return Status::Memory;
    };
    let mut trial = Trial {
        tree: PlainTree::new(alloc),
    };
    status_of(answer_lines(
        alloc,
        &mut trial,
        now,
        &mut reader,
        &mut text,
        input,
        output,
    ))
}

fn status_of(end: End) -> Status
    ensures { result ≡ status_of end }
{
    match end {
        End::Finished => Status::Done,
        End::InputFault => Status::InputFault,
        End::OutputFault => Status::OutputFault,
    }
}

/// So many generated commands on a new plain tree, and the summary of the answers.
pub fn try_generated<O: Sink>(alloc: Global, now: Moment, count: u64, output: &mut O) -> Status
    requires { count ≤ 1000000 }
    ensures generated { GeneratedOnPlain now count (stream_of O.written O.faults output.old output.new) result }
    ensures output_grows { O.faults output.old ≤ O.faults output.new }
{
    let Ok(mut text) = TextBuffer::new(alloc) else {
        return Status::Memory;
    };
    let mut trial = Trial {
        tree: PlainTree::new(alloc),
    };
    status_of(answer_generated(alloc, &mut trial, now, count, &mut text, output))
}
