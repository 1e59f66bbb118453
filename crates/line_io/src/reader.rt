// Lines of a source that is read in blocks.
ghost use Rattle.std.specs.Prelude.{◌≡◌, ◌≤◌, ◌<◌, ◌+◌, ◌^◌, ℕ, List, [], ◌∷◌, ◌++◌, true, false, length, take, drop, slice_range, IfOk, OnOk, OnErr, MatchOption, MatchBool, IsTrue};
ghost use Rattle.std.specs.declared.option.Option.{Option};
ghost use Rattle.std.specs.declared.option.Option.TheVariants.{None, Some};
ghost use Rattle.std.specs.Option.{option_copied};
ghost use Rattle.std.specs.List.{position};
ghost use Rattle.outside.specs.Streams.{WereTaken, Ends};
ghost use Rattle.line_io.specs.Calls.{FaultsTell, NotesTruly, BlockIsAhead, BlockIsCounted, KeepsComing, ReadsOnce, IsOver, ShowsLine, ReadsAsNeeded, ReadTells, FillsPiece};
ghost use Rattle.line_io.specs.Lines.{is_newline, IsUnbroken, kept_on};
ghost use Rattle.line_io.specs.Reading.{Reading, fresh, coming, TookLine, remaining};

use crate::line_buffer::LineBuffer;
use block_id::{Failed, Memory};
use memchr::memchr;
use outside::Source;
use std::alloc::Global;
use std::marker::Model;

/// The byte that ends a line.
pub const NEWLINE: u8 = 0x0A;

/// Bytes that one call asks of the source.
const BLOCK: usize = 65_536;

/// Bytes that are taken of a source.
const MOST: u64 = 1 << 63;

/// Reads a source line by line, in blocks.
#[derive(Drop)]
pub struct LineReader {
    line: LineBuffer,
    block: Vec<u8>,
    start: usize,
    end: usize,
    taken: u64,
    ended: bool,
}

impl Model for LineReader {
    ghost Value = { Reading };

    ghost view = { λ r. record { line = r.line; ahead = slice_range r.block.items r.start r.end; taken = r.taken; ended = r.ended } };

    ghost invariant = { λ r. (r.start ≤ r.end) × (r.end ≤ length r.block.items) × (length r.block.items ≡ 65536) × (r.taken ≤ 2 ^ 63) };
}

/// The place of the first newline.
fn newline_at(bytes: &[u8]) -> Option<usize>
    ensures { result ≡ position is_newline bytes.now }
{
    memchr(NEWLINE, bytes)
}

/// Reads up to `len` bytes into the front of the block, by one read.
fn read_block<I: Source>(input: &mut I, block: &mut [u8], len: usize) -> Result<usize, Failed>
    requires { len ≤ length block.old }
    ensures bound { IfOk result (λ n. n ≤ len) }
    ensures ok { IfOk result (λ n. WereTaken (I.rest input.old) (I.rest input.new) (take n block.new)) }
    ensures took { IfOk result (λ n. I.took input.old input.new (take n block.new)) }
    ensures end { IfOk result (λ n. n ≡ 0 → 0 < len → Ends (I.rest input.old)) }
    ensures err { OnErr result (I.rest input.new ≡ I.rest input.old) }
    ensures faults { ReadTells (I.faults input.old) (I.faults input.new) result }
{
    input.read(&mut block[..len])
}

impl LineReader {
    /// Before the first byte; takes the memory for a line and a block.
    pub fn new(alloc: Global) -> Result<LineReader, Memory>
        ensures { IfOk result (λ reader. reader ≡ fresh) }
    {
        Ok(LineReader {
            line: LineBuffer::new(alloc)?,
            block: vec![in alloc; 0; BLOCK]?,
            start: 0,
            end: 0,
            taken: 0,
            ended: false,
        })
    }

    /// The line that was read last, or None for one of more than 1,048,576 bytes.
    pub fn line(&self) -> Option<&[u8]>
        ensures { option_copied result ≡ self.now.line }
    {
        self.line.line()
    }

    /// Reads the next block, and says whether one came.
    fn fill<I: Source>(&mut self, input: &mut I) -> Result<bool, Failed>
        requires { self.old.ahead ≡ [] }
        ensures line { self.new.line ≡ self.old.line }
        ensures block { BlockIsAhead I.rest I.took self.old.ahead self.new.ahead input.old input.new result }
        ensures some { IfOk result (λ some. MatchBool some (0 < length self.new.ahead) (Ends (I.rest input.old) × (self.new.ahead ≡ []))) }
        ensures ended { IfOk result (λ some. MatchBool some (self.new.ended ≡ false) (self.new.ended ≡ true)) }
        ensures counts { BlockIsCounted self.old self.new (I.rest input.old) (I.rest input.new) }
        ensures faults { FaultsTell (I.faults input.old) (I.faults input.new) self.new.taken result }
    {
        let left = MOST - self.taken;
        if left == 0 {
            return Err(Failed);
        }
        let len = left.min(BLOCK as u64) as usize;
        let n = read_block(input, &mut self.block, len)?;
        self.start = 0;
        self.end = n;
        self.taken += n as u64;
        self.ended = n == 0;
        Ok(n != 0)
    }

    /// Sees to it that bytes were read ahead, and says whether there are any: there are none where the input has ended.
    fn look_ahead<I: Source>(&mut self, input: &mut I) -> Result<bool, Failed>
        requires { self.old.ended ≡ true → Ends (coming self.old.ahead (I.rest input.old)) }
        ensures line { self.new.line ≡ self.old.line }
        ensures bytes { KeepsComing self.old.ahead self.new.ahead (I.rest input.old) (I.rest input.new) result }
        ensures some { IfOk result (λ some. MatchBool some (0 < length self.new.ahead) (Ends (coming self.new.ahead (I.rest input.new)))) }
        ensures source { ReadsOnce I.took self.old self.new input.old input.new result }
        ensures stays { OnOk result (remaining self.new ≡ remaining self.old) }
        ensures notes { NotesTruly self.old self.new (I.rest input.old) (I.rest input.new) result }
        ensures faults { FaultsTell (I.faults input.old) (I.faults input.new) self.new.taken result }
    {
        if self.start < self.end {
            return Ok(true);
        }
        if self.ended {
            return Ok(false);
        }
        self.fill(input)
    }

    /// Moves the bytes that were read ahead onto the line, up to a newline, and says whether there was one.
    fn take_piece(&mut self) -> bool
        ensures piece { MatchBool result
            ((part : List ℕ) × IsUnbroken part × (self.old.ahead ≡ part ++ 10 ∷ self.new.ahead) × (self.new.line ≡ kept_on self.old.line part))
            (IsUnbroken self.old.ahead × (self.new.ahead ≡ []) × (self.new.line ≡ kept_on self.old.line self.old.ahead)) }
        ensures taken { self.new.taken ≡ self.old.taken }
        ensures ended { self.new.ended ≡ self.old.ended }
    {
        match newline_at(&self.block[self.start..self.end]) {
            Some(n) => {
                self.line.append(&self.block[self.start..self.start + n]);
                self.start += n + 1;
                true
            }
            None => {
                self.line.append(&self.block[self.start..self.end]);
                self.start = self.end;
                false
            }
        }
    }

    /// Reads the next line, and says whether there was one. The input is that of the calls before. It isn't read where a
    /// line is ahead, and never after its end. After an Err the line is the part of it that was read, which is gone
    /// from the input.
    pub fn next_line<I: Source>(&mut self, input: &mut I) -> Result<bool, Failed>
        requires { self.old.ended ≡ true → Ends (coming self.old.ahead (I.rest input.old)) }
        ensures line { IfOk result (λ found. IsTrue found →
            TookLine (coming self.old.ahead (I.rest input.old)) self.new.line (coming self.new.ahead (I.rest input.new))) }
        ensures none { IfOk result (λ found. found ≡ false →
            IsOver (coming self.old.ahead (I.rest input.old)) (coming self.new.ahead (I.rest input.new)) (I.rest input.new)) }
        ensures shows { ShowsLine self.old.ahead (I.rest input.old) (I.rest input.new) self.new.line result }
        ensures source { ReadsAsNeeded I.took self.old input.old input.new result }
        ensures nearer { IfOk result (λ found. IsTrue found → remaining self.new < remaining self.old) }
        ensures notes { NotesTruly self.old self.new (I.rest input.old) (I.rest input.new) result }
        ensures faults { FaultsTell (I.faults input.old) (I.faults input.new) self.new.taken result }
    {
        self.line.clear();
        let mut is_empty = true;
        while self.look_ahead(input)? {
            if self.take_piece() {
                return Ok(true);
            }
            is_empty = false;
        }
        Ok(!is_empty)
    }

    /// Moves bytes that were read ahead to the front of the piece, as many as it has room for. How many.
    fn move_ahead(&mut self, piece: &mut [u8]) -> usize
        ensures bound { result ≤ length piece.new }
        ensures moved { self.old.ahead ≡ take result piece.new ++ self.new.ahead }
        ensures some { 0 < length self.old.ahead → 0 < length piece.new → 0 < result }
        ensures line { self.new.line ≡ self.old.line }
        ensures taken { self.new.taken ≡ self.old.taken }
        ensures ended { self.new.ended ≡ self.old.ended }
    {
        let n = (self.end - self.start).min(piece.len());
        piece[..n].copy_from_slice(&self.block[self.start..self.start + n]);
        self.start += n;
        n
    }

    /// Reads the bytes behind the lines that were taken into the piece, as far as it has room and the input goes. How
    /// many. The input is that of the calls before, and isn't read after its end. After an Err a part of them is gone.
    pub fn read_bytes<I: Source>(
        &mut self,
        input: &mut I,
        piece: &mut [u8],
    ) -> Result<usize, Failed>
        requires { self.old.ended ≡ true → Ends (coming self.old.ahead (I.rest input.old)) }
        ensures line { self.new.line ≡ self.old.line }
        ensures bytes { IfOk result (λ n. FillsPiece (coming self.old.ahead (I.rest input.old)) (coming self.new.ahead (I.rest input.new)) piece.new n) }
        ensures gone { OnErr result ((part : List ℕ) × WereTaken (coming self.old.ahead (I.rest input.old)) (coming self.new.ahead (I.rest input.new)) part) }
        ensures after_end { self.old.ended ≡ true → input.new ≡ input.old }
        ensures notes { NotesTruly self.old self.new (I.rest input.old) (I.rest input.new) result }
        ensures faults { FaultsTell (I.faults input.old) (I.faults input.new) self.new.taken result }
    {
        let mut len = 0;
        while len < piece.len() {
            if !self.look_ahead(input)? {
                return Ok(len);
            }
            len += self.move_ahead(&mut piece[len..]);
        }
        Ok(len)
    }
}
