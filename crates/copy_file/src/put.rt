// The bytes of an input, as a new file of a tree.
ghost use Rattle.std.specs.Prelude.{◌≡◌, ◌≤◌, true, IfOk};
ghost use Rattle.outside.specs.Streams.{Ends};
ghost use Rattle.copy_sessions.specs.line_io.Reading.{coming, total};
ghost use Rattle.copy_sessions.specs.line_io.Streams.{stream_of};
ghost use Rattle.copy_row.specs.Rows.{StopsBy};
ghost use Rattle.copy_file.specs.Putting.{IsTaken, PieceFaults, BytesPut, FilePut, InputBy};

use block_id::{Failed, Memory};
use copy_row::copy_laws::{Asker, Totals};
use copy_row::{FILE_END, PIECE, Stop, make_file, no_totals, write_piece};
use copy_sessions::line_io::LineReader;
use fs_model::Path;
use outside::{GetFail, Source};
use std::alloc::Global;

/// The next bytes of the input: a whole piece, or less where it ends.
fn next_piece<I: Source>(
    alloc: Global,
    reader: &mut LineReader,
    input: &mut I,
) -> Result<Vec<u8>, GetFail>
    requires ended { reader.old.ended ≡ true → Ends (coming reader.old.ahead (I.rest input.old)) }
    ensures piece { IfOk result (λ piece. IsTaken (coming reader.old.ahead (I.rest input.old)) (coming reader.new.ahead (I.rest input.new)) piece.items) }
    ensures ended { IfOk result (λ piece. reader.new.ended ≡ true → Ends (coming reader.new.ahead (I.rest input.new))) }
    ensures counted { total reader.new.taken (I.rest input.new) ≡ total reader.old.taken (I.rest input.old) }
    ensures grows { I.faults input.old ≤ I.faults input.new }
    ensures faults { PieceFaults reader.new.taken (stream_of I.rest I.faults input.old input.new) result }
{
    let mut piece = match Vec::from_elem(alloc, 0, PIECE) {
        Ok(piece) => piece,
        Err(_) => return Err(GetFail::Memory),
    };
    match reader.read_bytes(input, &mut piece) {
        Ok(len) => {
            piece.truncate(len);
            Ok(piece)
        }
        Err(Failed) => Err(GetFail::Failed),
    }
}

/// Writes the bytes of the input into a new file.
fn put_bytes<I: Source, A: Asker>(
    alloc: Global,
    reader: &mut LineReader,
    input: &mut I,
    asker: &mut A,
    to: &Path,
    totals: &mut Totals,
) -> Result<(), Stop>
    requires ready { A.asking.ready asker.old }
    requires ended { reader.old.ended ≡ true → Ends (coming reader.old.ahead (I.rest input.old)) }
    ensures ready { A.asking.ready asker.new }
    ensures stops { StopsBy (A.asking.stops asker.old) (A.asking.stops asker.new) result }
    ensures grows { I.faults input.old ≤ I.faults input.new }
    ensures input { InputBy reader.old.taken (stream_of I.rest I.faults input.old input.new) result }
    ensures put { BytesPut A.asking asker.old asker.new (coming reader.old.ahead (I.rest input.old)) to.now totals.old totals.new result }
{
    let mut place = 0;
    while place < FILE_END {
        let piece = match next_piece(alloc, reader, input) {
            Ok(piece) => piece,
            Err(GetFail::Memory) => return Err(Stop::Memory),
            Err(GetFail::Failed) => return Err(Stop::Host),
        };
        let len = piece.len();
        if len == 0 {
            return Ok(());
        }
        match write_piece(alloc, asker, to, place, piece, totals) {
            Ok(()) => {}
            Err(stop) => return Err(stop),
        }
        if len < PIECE {
            return Ok(());
        }
        place += len as u64;
    }
    Err(Stop::Memory)
}

/// Makes a new file at this path, with the bytes of the input behind the lines that the reader has taken. Host is an input
/// that failed, in which case the file has the pieces that came before.
pub fn put_file<I: Source, A: Asker>(
    alloc: Global,
    reader: &mut LineReader,
    input: &mut I,
    asker: &mut A,
    to: &Path,
) -> Result<Totals, Stop>
    requires ready { A.asking.ready asker.old }
    requires ended { reader.old.ended ≡ true → Ends (coming reader.old.ahead (I.rest input.old)) }
    ensures ready { A.asking.ready asker.new }
    ensures stops { StopsBy (A.asking.stops asker.old) (A.asking.stops asker.new) result }
    ensures grows { I.faults input.old ≤ I.faults input.new }
    ensures input { InputBy reader.old.taken (stream_of I.rest I.faults input.old input.new) result }
    ensures put { FilePut A.asking asker.old asker.new (coming reader.old.ahead (I.rest input.old)) to.now result }
{
    let mut totals = no_totals();
    match make_file(alloc, asker, to, &mut totals) {
        Ok(()) => {}
        Err(stop) => return Err(stop),
    }
    match put_bytes(alloc, reader, input, asker, to, &mut totals) {
        Ok(()) => Ok(totals),
        Err(stop) => Err(stop),
    }
}
