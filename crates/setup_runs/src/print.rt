// The text of a run.
ghost use Rattle.std.specs.Prelude.{◌≤◌};
ghost use Rattle.setup_runs.specs.Printing.{Printed};
ghost use Rattle.run_frame.specs.line_io.Streams.{stream_of};

use block_id::Failed;
use outside::Sink;
use run_frame::line_io::write_all;
use run_status::Status;

/// Writes a text, with which all is printed.
pub(crate) fn print<O: Sink>(text: &[u8], output: &mut O) -> Status
    ensures printed { Printed (stream_of O.written O.faults output.old output.new) text.now result }
    ensures grows { O.faults output.old ≤ O.faults output.new }
{
    match write_all(output, text) {
        Ok(()) => Status::Done,
        Err(Failed) => Status::OutputFault,
    }
}
