// The end of a put or a get as that of a session.
ghost use Rattle.std.specs.Prelude.{◌≤◌};
ghost use Rattle.copy_sessions.specs.line_io.Streams.{stream_of};
ghost use Rattle.copy_file.specs.Coming.{IsPutTold, IsGetEnd};

use copy_row::Stop;
use copy_row::copy_laws::{CopyFail, Totals};
use copy_sessions::answers::Answer;
use copy_sessions::session_lines::End;
use copy_sessions::{CopyText, Way, stopped_status, tell_copy};
use fs_model::Path;
use outside::Sink;
use run_status::Status;

/// Writes the line of a put at this path that ended so, with this answer kept, and gives its end and its status. Of an
/// input that failed nothing is written.
pub fn tell_put<O: Sink>(
    text: &mut CopyText,
    put: Result<Totals, Stop>,
    path: Path,
    kept: &Option<Answer>,
    output: &mut O,
) -> (End, Status)
    ensures told { IsPutTold put path kept.now (stream_of O.written O.faults output.old output.new) result.0 result.1 }
    ensures grows { O.faults output.old ≤ O.faults output.new }
{
    match put {
        Ok(totals) => tell_copy(text, Way::In, Ok(totals), kept, output),
        Err(Stop::Memory) => tell_copy(text, Way::In, Err(CopyFail::Memory), kept, output),
        Err(Stop::Host) => (End::InputFault, Status::Done),
        Err(Stop::Stopped) => tell_copy(text, Way::In, Err(CopyFail::Stopped), kept, output),
        Err(Stop::Refused(error)) => {
            let refused = Err(CopyFail::Refused(path, error));
            tell_copy(text, Way::In, refused, kept, output)
        }
    }
}

/// The end of a get that ended so, with this answer kept, and its status.
pub fn get_end(got: Result<(), Stop>, kept: &Option<Answer>) -> (End, Status)
    ensures { IsGetEnd got kept.now result.0 result.1 }
{
    match got {
        Ok(()) => (End::Finished, Status::Done),
        Err(Stop::Memory) => (End::Finished, Status::Memory),
        Err(Stop::Host) => (End::OutputFault, Status::Done),
        Err(Stop::Stopped) => (End::Finished, stopped_status(kept)),
        Err(Stop::Refused(_)) => (End::Finished, Status::CopyRefused),
    }
}
