// Whole texts into a sink.
ghost use Rattle.std.specs.Prelude.{◌≤◌, OnOk, OnErr, ◌≡◌};
ghost use Rattle.outside.specs.Causes.{RoseBy};
ghost use Rattle.outside.specs.Streams.{appends};
ghost use Rattle.line_io.specs.Streams.{Cut};

use block_id::Failed;
use outside::Sink;

/// Writes a whole text.
pub fn write_all<O: Sink>(output: &mut O, text: &[u8]) -> Result<(), Failed>
    ensures ok { OnOk result (O.written output.new ≡ appends (O.written output.old) text.now) }
    ensures err { OnErr result (Cut (O.written output.old) (O.written output.new) text.now) }
    ensures grows { O.faults output.old ≤ O.faults output.new }
    ensures cause { OnErr result (RoseBy 1 (O.faults output.old) (O.faults output.new)) }
    ensures quiet { OnOk result (O.faults output.new ≡ O.faults output.old) }
{
    let mut rest = text;
    while !rest.is_empty() {
        match output.write(rest) {
            Ok(n) => rest = &rest[n..],
            Err(Failed) => return Err(Failed),
        }
    }
    Ok(())
}
