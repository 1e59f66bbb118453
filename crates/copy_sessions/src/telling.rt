// The end of a copy, told.
ghost use Rattle.std.specs.Prelude.{◌≤◌};
ghost use Rattle.session_lines.specs.line_io.Streams.{stream_of};
ghost use Rattle.copy_sessions.specs.Coming.{IsCopyTold};

use crate::status::copy_status;
use crate::text::CopyText;
use crate::way::Way;
use block_id::Failed;
use copy_laws::{CopyFail, Totals};
use outside::Sink;
use run_status::Status;
use session_lines::End;
use session_lines::answers::Answer;
use session_lines::line_io::write_all;

/// Writes the line of a copy that ended so, with this answer kept, and gives its status.
pub fn tell_copy<O: Sink>(
    text: &mut CopyText,
    way: Way,
    copied: Result<Totals, CopyFail>,
    kept: &Option<Answer>,
    output: &mut O,
) -> (End, Status)
    ensures told { IsCopyTold way copied kept.now (stream_of O.written O.faults output.old output.new) result.0 result.1 }
    ensures grows { O.faults output.old ≤ O.faults output.new }
{
    let told = text.tell(way, copied, kept);
    let own = copy_status(&told, kept);
    match write_all(output, text.as_slice()) {
        Ok(()) => (End::Finished, own),
        Err(Failed) => (End::OutputFault, own),
    }
}
