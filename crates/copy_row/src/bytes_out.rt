// A file's bytes in a folder, piece by piece.
ghost use Rattle.std.specs.Prelude.{◌≡◌};
ghost use Rattle.copy_row.specs.Rows.{StopsBy, FaultsBy};
ghost use Rattle.copy_row.specs.Reads.{BytesOut};

use crate::bytes::PIECE;
use crate::making::append_bytes;
use crate::place::RowPlace;
use crate::replies::ask_piece;
use crate::stop::Stop;
use copy_laws::Asker;
use copy_laws::host_folder::Folder;
use std::alloc::Global;

/// No file goes on beyond this place.
pub const FILE_END: u64 = 1 << 63;

/// Copies a file's bytes into an empty file of the folder. How many.
pub fn bytes_out<F: Folder, A: Asker>(
    alloc: Global,
    host: &mut F,
    asker: &mut A,
    at: &RowPlace,
) -> Result<u64, Stop>
    requires ready { A.asking.ready asker.old }
    ensures ready { A.asking.ready asker.new }
    ensures faults { FaultsBy (F.faults host.old) (F.faults host.new) result }
    ensures stops { StopsBy (A.asking.stops asker.old) (A.asking.stops asker.new) result }
    ensures out { BytesOut A.asking asker.old asker.new (F.tree host.old) (F.tree host.new) at.now.tree at.now.host result }
{
    let mut place = 0;
    while place < FILE_END {
        let piece = match ask_piece(alloc, asker, &at.tree, place) {
            Ok(piece) => piece,
            Err(stop) => return Err(stop),
        };
        let bytes = piece.as_slice();
        match append_bytes(alloc, host, &at.host, bytes) {
            Ok(()) => {}
            Err(stop) => return Err(stop),
        }
        let len = bytes.len();
        if len < PIECE {
            return Ok(place + len as u64);
        }
        place += PIECE as u64;
    }
    Err(Stop::Memory)
}
