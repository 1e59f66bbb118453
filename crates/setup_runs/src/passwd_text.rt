// What `passwd` prints.
ghost use Rattle.std.specs.Prelude.{◌≤◌};
ghost use Rattle.run_frame.specs.line_io.Streams.{stream_of};
ghost use Rattle.setup_runs.specs.PasswdText.{Reports};

use crate::print::print;
use mount_migrating::record_saver::SyncError;
use outside::Sink;
use run_frame::closing_status;
use run_status::Status;

/// Says that the password was changed, where that was done.
pub fn report_changed<O: Sink>(change: Result<(), SyncError>, output: &mut O) -> Status
    ensures reports { Reports change (stream_of O.written O.faults output.old output.new) result }
    ensures grows { O.faults output.old ≤ O.faults output.new }
{
    match change {
        Ok(()) => print(b"changed\n", output),
        Err(_) => closing_status(change),
    }
}
