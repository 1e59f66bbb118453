// What `create` prints.
ghost use Rattle.std.specs.Prelude.{◌≤◌};
ghost use Rattle.run_frame.specs.line_io.Streams.{stream_of};
ghost use Rattle.setup_runs.specs.CreateText.{Reports, created_text};
ghost use Rattle.setup_runs.specs.Printing.{Printed};

use crate::print::print;
use block_id::BlockId;
use outside::Sink;
use run_frame::mount_stores::OpenError;
use run_frame::opening_status;
use run_status::Status;

/// Prints the id of a file system that was made.
pub fn report_created<O: Sink>(made: Result<BlockId, OpenError>, output: &mut O) -> Status
    ensures reports { Reports made (stream_of O.written O.faults output.old output.new) result }
    ensures grows { O.faults output.old ≤ O.faults output.new }
{
    match made {
        Ok(id) => print_created(&id, output),
        Err(error) => opening_status(error),
    }
}

/// Prints the id of a new file system.
fn print_created<O: Sink>(fs_id: &BlockId, output: &mut O) -> Status
    ensures printed { Printed (stream_of O.written O.faults output.old output.new) (created_text fs_id.now.0) result }
    ensures grows { O.faults output.old ≤ O.faults output.new }
{
    let mut text = *b"created ________________________________\n";
    text[8..40].copy_from_slice(&fs_id.to_name());
    print(&text, output)
}
