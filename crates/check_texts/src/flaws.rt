// What is wrong, as a line.
ghost use Rattle.std.specs.Prelude.{◌≡◌, ◌≤◌, ◌++◌, [], codes, length, OnErr};
ghost use Rattle.copy_sessions.specs.line_io.Streams.{stream_of};
ghost use Rattle.copy_sessions.specs.script_text.Appending.{Appends};
ghost use Rattle.copy_sessions.specs.script_text.Texts.{line, word};
ghost use Rattle.block_id.specs.Name.{name_of};
ghost use Rattle.check_texts.specs.Texts.{flaw_text, violation_text};
ghost use Rattle.copy_sessions.specs.session_lines.Driven.{Reported};

use crate::page::Page;
use block_id::{BlockId, Failed, Memory, Why};
use check_refused::check_walk::Flaw;
use copy_sessions::answers::{Answer, print_answer};
use copy_sessions::line_io::write_all;
use copy_sessions::script_text::push_bytes;
use copy_sessions::session_lines::End;
use outside::Sink;

/// Prints the line of a flaw.
pub fn print_flaw<O: Sink>(flaw: &Flaw, page: &mut Page, output: &mut O) -> End
    requires empty { page.old ≡ [] }
    ensures reported { Reported (stream_of O.written O.faults output.old output.new) (flaw_text flaw.now) result }
    ensures grows { O.faults output.old ≤ O.faults output.new }
{
    match push_flaw(&mut page.bytes, flaw) {
        Ok(()) => print(&page.bytes, output),
        Err(Memory) => unreachable!(),
    }
}

/// Prints the line of a violation, as sessions answer it.
pub fn print_violation<O: Sink>(why: &Why, page: &mut Page, output: &mut O) -> End
    requires empty { page.old ≡ [] }
    ensures reported { Reported (stream_of O.written O.faults output.old output.new) (violation_text why.now) result }
    ensures grows { O.faults output.old ≤ O.faults output.new }
{
    match print_answer(&Answer::Violation(*why), &mut page.bytes) {
        Ok(()) => print(&page.bytes, output),
        Err(Memory) => unreachable!(),
    }
}

/// Writes a text.
fn print<O: Sink>(text: &[u8], output: &mut O) -> End
    ensures reported { Reported (stream_of O.written O.faults output.old output.new) text.now result }
    ensures grows { O.faults output.old ≤ O.faults output.new }
{
    match write_all(output, text) {
        Ok(()) => End::Finished,
        Err(Failed) => End::OutputFault,
    }
}

/// Appends the line of a flaw.
pub(crate) fn push_flaw(out: &mut Vec<u8>, flaw: &Flaw) -> Result<(), Memory>
    ensures text { Appends out.old out.new result (flaw_text flaw.now) }
    ensures short { length (flaw_text flaw.now) ≤ 256 }
{
    match flaw {
        Flaw::BadNode(id) => push_no(out, b"bad-node", id),
        Flaw::BadBlob(id) => push_no(out, b"bad-blob", id),
        Flaw::Parent(id) => push_no(out, b"parent", id),
        Flaw::Twice(id) => push_no(out, b"twice", id),
        Flaw::NotLive(id) => push_no(out, b"not-live", id),
        Flaw::Unowned(id) => push_no(out, b"unowned", id),
    }
}

/// Appends the line of a kind of flaw, and the block that has it.
fn push_no(out: &mut Vec<u8>, kind: &[u8], id: &BlockId) -> Result<(), Memory>
    ensures text { Appends out.old out.new result (line (codes "check no" ++ word kind.now ++ word (name_of id.now.0))) }
    ensures wide { length (name_of id.now.0) ≡ 32 }
{
    let name = id.to_name();
    push_bytes(out, b"check no ")?;
    push_bytes(out, kind)?;
    push_bytes(out, b" ")?;
    push_bytes(out, &name)?;
    push_bytes(out, b"\n")
}
