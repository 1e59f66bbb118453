// Generated commands and the summary of their answers.
ghost use Rattle.std.specs.Prelude.{◌≡◌, ◌≤◌, ◌<◌, List, length, Ok};
ghost use Rattle.line_io.specs.Streams.{stream_of};
ghost use Rattle.workload.specs.Generated.{generated_of};
ghost use Rattle.answers.specs.declared.answer.Answer.{Answer};
ghost use Rattle.answers.specs.Summaries.{counts_of, summary_of, IsSmall};
ghost use Rattle.session_lines.specs.Driven.{Summed, Generated};

use crate::end::End;
use answers::{Answer, Host, Summary, TextBuffer};
use block_id::{Failed, Memory};
use fs_model::Moment;
use line_io::write_all;
use outside::Sink;
use std::alloc::Global;

/// The answer to a generated command. What refuses is asked for nothing.
fn answer_numbered<H: Host>(alloc: Global, host: &mut H, now: Moment, number: u64) -> Answer
    requires ready { H.hosting.ready host.old }
    ensures ready { H.hosting.ready host.new }
    ensures answered { H.hosting.answers host.old now (Ok (generated_of number)) result host.new }
    ensures chance { H.hosting.chance host.new ≡ H.hosting.chance host.old }
{
    if host.refuses() {
        return Answer::Refused;
    }
    match workload::generated(alloc, number) {
        Ok(command) => host.answer(alloc, now, &command),
        Err(Memory) => Answer::Memory,
    }
}

/// Asks the first so many generated commands, one after another, and counts the answers.
fn summarize<H: Host>(alloc: Global, host: &mut H, now: Moment, count: u64) -> Summary
    requires ready { H.hosting.ready host.old }
    requires few { count ≤ 1000000 }
    ensures ready { H.hosting.ready host.new }
    ensures summed { Summed H.hosting now host.old host.new count (counts_of result) }
    ensures small { IsSmall (counts_of result) }
    ensures lines { result.lines ≡ count }
    ensures chance { H.hosting.chance host.new ≡ H.hosting.chance host.old }
{
    let mut summary = Summary::new();
    for i in 0..count {
        let answer = answer_numbered(alloc, host, now, i);
        summary.add(&answer);
    }
    summary
}

/// Asks the first so many generated commands, one after another, and prints the summary of the answers.
pub fn answer_generated<H: Host, O: Sink>(
    alloc: Global,
    host: &mut H,
    now: Moment,
    count: u64,
    text: &mut TextBuffer,
    output: &mut O,
) -> End
    requires ready { H.hosting.ready host.old }
    requires few { count ≤ 1000000 }
    ensures ready { H.hosting.ready host.new }
    ensures generated { Generated H.hosting now host.old host.new count (stream_of O.written O.faults output.old output.new) result }
    ensures output_grows { O.faults output.old ≤ O.faults output.new }
    ensures chance { H.hosting.chance host.new ≡ H.hosting.chance host.old }
{
    let summary = summarize(alloc, host, now, count);
    text.sum_up(&summary);
    match write_all(output, text.as_slice()) {
        Ok(()) => End::Finished,
        Err(Failed) => End::OutputFault,
    }
}
