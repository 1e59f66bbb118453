// The answer to a line.
ghost use Rattle.std.specs.Prelude.{◌≡◌, List, ℕ, false};
ghost use Rattle.std.specs.declared.option.Option.{Option};
ghost use Rattle.std.specs.Option.{option_copied};
ghost use Rattle.line_io.specs.Lines.{kept};
ghost use Rattle.answers.specs.script_text.Grammar.{command_of};
ghost use Rattle.session_lines.specs.Driven.{TellsLine};

use answers::script_text::{LineError, parse_line};
use answers::{Answer, Host, TextBuffer};
use fs_model::{FsError, Moment, Reply};
use std::alloc::Global;

/// The answer to a line of what doesn't refuse.
fn read_and_answer<H: Host>(alloc: Global, host: &mut H, now: Moment, line: &[u8]) -> Answer
    requires ready { H.hosting.ready host.old }
    requires serves { H.hosting.refuses host.old ≡ false }
    ensures ready { H.hosting.ready host.new }
    ensures answered { H.hosting.answers host.old now (command_of line.now) result host.new }
    ensures chance { H.hosting.chance host.new ≡ H.hosting.chance host.old }
{
    match parse_line(alloc, line) {
        Ok(command) => host.answer(alloc, now, &command),
        Err(LineError::Bad(error)) => Answer::Reply(Reply::Error(error)),
        Err(LineError::Memory) => Answer::Memory,
    }
}

/// The answer to a line, or to one that is too long to be kept. What refuses is asked for nothing.
fn answer_line<H: Host>(alloc: Global, host: &mut H, now: Moment, line: Option<&[u8]>) -> Answer
    requires ready { H.hosting.ready host.old }
    ensures ready { H.hosting.ready host.new }
    ensures answered { (whole : List ℕ) → option_copied line.entry ≡ kept whole → H.hosting.answers host.old now (command_of whole) result host.new }
    ensures chance { H.hosting.chance host.new ≡ H.hosting.chance host.old }
{
    if host.refuses() {
        return Answer::Refused;
    }
    match line {
        Some(bytes) => read_and_answer(alloc, host, now, bytes),
        None => Answer::Reply(Reply::Error(FsError::BadLine)),
    }
}

/// Answers a line, or one that is too long to be kept, and sets the text of the answer.
pub fn tell_line<H: Host>(
    alloc: Global,
    host: &mut H,
    now: Moment,
    line: Option<&[u8]>,
    text: &mut TextBuffer,
)
    requires ready { H.hosting.ready host.old }
    ensures ready { H.hosting.ready host.new }
    ensures told { (whole : List ℕ) → option_copied line.entry ≡ kept whole → TellsLine H.hosting now host.old whole text.new host.new }
    ensures chance { H.hosting.chance host.new ≡ H.hosting.chance host.old }
{
    let answer = answer_line(alloc, host, now, line);
    let _told = text.tell(answer);
}
