// The bytes of a file of a tree, to an output.
ghost use Rattle.std.specs.Prelude.{◌≡◌, ◌≤◌};
ghost use Rattle.copy_sessions.specs.line_io.Streams.{stream_of};
ghost use Rattle.copy_row.specs.Rows.{StopsBy, NeverHost};
ghost use Rattle.copy_file.specs.Getting.{PieceAsked, FileGot};

use block_id::{Failed, Memory};
use copy_row::copy_laws::{Asker, Stopped};
use copy_row::{FILE_END, PIECE, Stop, copy_path};
use copy_sessions::line_io::write_all;
use fs_model::{ByteText, Command, Path, Reply};
use outside::Sink;
use std::alloc::Global;

/// Asks for a piece of the file at this path: whole, or less where the file ends.
fn ask_bytes<A: Asker>(
    alloc: Global,
    asker: &mut A,
    from: &Path,
    place: u64,
) -> Result<ByteText, Stop>
    requires ready { A.asking.ready asker.old }
    ensures ready { A.asking.ready asker.new }
    ensures stops { StopsBy (A.asking.stops asker.old) (A.asking.stops asker.new) result }
    ensures host { NeverHost result }
    ensures asked { PieceAsked A.asking asker.old asker.new from.now place result }
{
    let path = match copy_path(alloc, from) {
        Ok(path) => path,
        Err(Memory) => return Err(Stop::Memory),
    };
    let command = Command::Read(path, place, PIECE as u64);
    match asker.ask(alloc, &command) {
        Ok(Reply::Content(bytes)) => Ok(bytes),
        Ok(Reply::Error(error)) => Err(Stop::Refused(error)),
        Ok(_) => unreachable!(),
        Err(Stopped) => Err(Stop::Stopped),
    }
}

/// Writes the bytes of the file at this path, and nothing else. Host is an output that failed.
pub fn get_file<A: Asker, O: Sink>(
    alloc: Global,
    asker: &mut A,
    from: &Path,
    output: &mut O,
) -> Result<(), Stop>
    requires ready { A.asking.ready asker.old }
    ensures ready { A.asking.ready asker.new }
    ensures stops { StopsBy (A.asking.stops asker.old) (A.asking.stops asker.new) result }
    ensures grows { O.faults output.old ≤ O.faults output.new }
    ensures got { FileGot A.asking asker.old asker.new from.now (stream_of O.written O.faults output.old output.new) result }
{
    let mut place = 0;
    while place < FILE_END {
        let piece = match ask_bytes(alloc, asker, from, place) {
            Ok(piece) => piece,
            Err(stop) => return Err(stop),
        };
        let bytes = piece.as_slice();
        match write_all(output, bytes) {
            Ok(()) => {}
            Err(Failed) => return Err(Stop::Host),
        }
        let len = bytes.len();
        if len < PIECE {
            return Ok(());
        }
        place += PIECE as u64;
    }
    Err(Stop::Memory)
}
