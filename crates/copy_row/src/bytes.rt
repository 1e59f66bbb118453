// A file's bytes, piece by piece.
ghost use Rattle.std.specs.Prelude.{◌≡◌, ◌≤◌, ◌<◌, ◌+◌, ◌^◌, ◌∷◌, [], ℕ, length, take, drop, IfOk, IfSome, OnOk, OnErr};
ghost use Rattle.outside.specs.Causes.{RoseBy};
ghost use Rattle.copy_row.specs.Reading.{IsFull, ReadFaults};
ghost use Rattle.copy_laws.specs.Ends.{counted};
ghost use Rattle.fs_model.specs.declared.command.Command.TheVariants.{Write};
ghost use Rattle.copy_row.specs.Rows.{Asks, StopsBy, FaultsBy, FileCopied, HasFile, IsPiece, NeverHost};

use crate::asking::ask_done;
use crate::paths::copy_path;
use crate::place::RowPlace;
use crate::stop::Stop;
use block_id::{Failed, Memory};
use copy_laws::host_folder::Folder;
use copy_laws::{Asker, Totals};
use fs_model::{ByteText, Command, Path};
use outside::GetFail;
use std::alloc::Global;

/// Bytes of a piece of a file.
pub const PIECE: usize = 1_048_576;

/// Fills the piece with the bytes of a file from this place on, as far as the file goes. How many.
fn fill<F: Folder>(host: &mut F, path: &Path, from: u64, piece: &mut [u8]) -> Result<usize, Failed>
    requires place { from ≤ 2 ^ 63 }
    requires room { 0 < length piece.old }
    ensures same { F.tree host.new ≡ F.tree host.old }
    ensures cause { OnErr result ((F.faults host.old ≤ F.faults host.new) × RoseBy 1 (F.faults host.old) (F.faults host.new)) }
    ensures quiet { OnOk result (F.faults host.new ≡ F.faults host.old) }
    ensures len { IfOk result (λ n. n ≤ length piece.new) }
    ensures far { IfOk result (λ n. 0 < n → from + n ≤ 2 ^ 63) }
    ensures told { IfOk result (λ n. IfSome (F.tree host.old) (λ t. IsFull t path.now from n piece.new)) }
{
    let mut len = 0;
    while len < piece.len() {
        match host.read(path, from + len as u64, &mut piece[len..]) {
            Ok(0) => return Ok(len),
            Ok(n) => len += n,
            Err(Failed) => return Err(Failed),
        }
    }
    Ok(len)
}

/// The bytes of a file from this place on: a whole piece, or less where the file ends.
fn next_piece<F: Folder>(
    alloc: Global,
    host: &mut F,
    path: &Path,
    from: u64,
) -> Result<Vec<u8>, GetFail>
    requires place { from ≤ 2 ^ 63 }
    ensures same { F.tree host.new ≡ F.tree host.old }
    ensures faults { ReadFaults (F.faults host.old) (F.faults host.new) result }
    ensures len { IfOk result (λ piece. length piece.items ≤ PIECE) }
    ensures far { IfOk result (λ piece. 0 < length piece.items → from + length piece.items ≤ 2 ^ 63) }
    ensures told { IfOk result (λ piece. IfSome (F.tree host.old) (λ t. IsPiece t path.now from piece.items)) }
{
    let mut piece = match Vec::from_elem(alloc, 0, PIECE) {
        Ok(piece) => piece,
        Err(_) => return Err(GetFail::Memory),
    };
    match fill(host, path, from, &mut piece) {
        Ok(len) => {
            piece.truncate(len);
            Ok(piece)
        }
        Err(Failed) => Err(GetFail::Failed),
    }
}

/// Writes a piece of the file at this path.
pub fn write_piece<A: Asker>(
    alloc: Global,
    asker: &mut A,
    to: &Path,
    place: u64,
    piece: Vec<u8>,
    totals: &mut Totals,
) -> Result<(), Stop>
    requires ready { A.asking.ready asker.old }
    ensures ready { A.asking.ready asker.new }
    ensures asks { Asks A.asking asker.old asker.new to.now (Write to.now place piece.items ∷ []) result }
    ensures stops { StopsBy (A.asking.stops asker.old) (A.asking.stops asker.new) result }
    ensures counts { OnOk result (totals.new ≡ counted totals.old (Write to.now place piece.items ∷ [])) }
    ensures host { NeverHost result }
{
    let path = match copy_path(alloc, to) {
        Ok(path) => path,
        Err(Memory) => return Err(Stop::Memory),
    };
    let command = Command::Write(path, place, ByteText::new(piece));
    ask_done(alloc, asker, &command, totals)
}

/// Copies a file's bytes into a new file.
pub fn copy_bytes<F: Folder, A: Asker>(
    alloc: Global,
    host: &mut F,
    asker: &mut A,
    at: &RowPlace,
    totals: &mut Totals,
) -> Result<(), Stop>
    requires ready { A.asking.ready asker.old }
    requires told { IfSome (F.tree host.old) (λ t. HasFile t at.now.host) }
    ensures ready { A.asking.ready asker.new }
    ensures same { F.tree host.new ≡ F.tree host.old }
    ensures faults { FaultsBy (F.faults host.old) (F.faults host.new) result }
    ensures stops { StopsBy (A.asking.stops asker.old) (A.asking.stops asker.new) result }
    ensures copied { FileCopied A.asking asker.old asker.new (F.tree host.old) at.now.host at.now.tree totals.old totals.new result }
{
    let mut place = 0;
    loop {
        let piece = match next_piece(alloc, host, &at.host, place) {
            Ok(piece) => piece,
            Err(GetFail::Memory) => return Err(Stop::Memory),
            Err(GetFail::Failed) => return Err(Stop::Host),
        };
        let len = piece.len();
        if len == 0 {
            return Ok(());
        }
        match write_piece(alloc, asker, &at.tree, place, piece, totals) {
            Ok(()) => {}
            Err(stop) => return Err(stop),
        }
        if len < PIECE {
            return Ok(());
        }
        place += len as u64;
    }
}
