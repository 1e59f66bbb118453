// Output that goes into memory.
ghost use Rattle.std.specs.Prelude.{◌≡◌, ◌⊎◌, ◌≤◌, ◌<◌, ◌↔◌, ◌+◌, ◌-◌, ◌++◌, ℕ, List, [], length, min, take, IfOk, OnErr, IsErr, Contains, vec_capacity};
ghost use Rattle.std.specs.declared.option.Option.TheVariants.{Some};
ghost use Rattle.outside.specs.Causes.{one_more};
ghost use Rattle.memory_outside.specs.Faults.{FailsWithCause};
ghost use Rattle.memory_outside.specs.MemoryStreams.{Drain, WriteLeaves};
ghost use Rattle.outside.specs.Streams.{appends};

use block_id::{Failed, Memory};
use outside::Sink;
use std::alloc::Global;
use std::marker::Model;

/// Bytes that were written in pieces, in memory taken beforehand; listed calls fail.
#[derive(Drop)]
pub struct MemorySink {
    written: Vec<u8>,
    piece: usize,
    room: usize,
    fails: Vec<u64>,
    calls: u64,
    faults: u64,
}

impl Model for MemorySink {
    ghost Value = { Drain };

    ghost view = { λ s. record { written = s.written.items; piece = s.piece; room = s.room; fails = s.fails.items; calls = s.calls; faults = s.faults } };

    ghost invariant = { λ s. (1 ≤ s.piece) × (length s.written.items ≤ s.room) × (s.room ≤ vec_capacity s.written) };
}

impl MemorySink {
    /// Takes at most `piece` bytes a call, and `room` bytes in all, for which it takes the memory here. The calls
    /// whose numbers, counted from 1, are in `fails` fail.
    pub fn new(
        alloc: Global,
        piece: usize,
        room: usize,
        fails: Vec<u64>,
    ) -> Result<MemorySink, Memory>
        requires { 1 ≤ piece }
        ensures { IfOk result (λ sink. sink ≡ record { written = []; piece = piece; room = room; fails = fails.items; calls = 0; faults = 0 }) }
    {
        Ok(MemorySink {
            written: Vec::with_capacity(alloc, room)?,
            piece,
            room,
            fails,
            calls: 0,
            faults: 0,
        })
    }

    /// The bytes written.
    pub fn written(&self) -> &[u8]
        ensures { result.now ≡ self.now.written }
    {
        &self.written
    }
}

impl Sink for MemorySink {
    ghost written = { λ s. Some s.written };

    ghost faults = { λ s. s.faults };

    fn write(&mut self, piece: &[u8]) -> Result<usize, Failed>
        ensures bound { IfOk result (λ n. n ≤ length piece.now) }
        ensures some { IfOk result (λ n. 0 < length piece.now → 0 < n) }
        ensures ok { IfOk result (λ n. self.new.written ≡ self.old.written ++ take n piece.now) }
        ensures err { OnErr result (self.new.written ≡ self.old.written) }
        ensures cause { FailsWithCause self.old.faults self.new.faults result }

        ensures fails_as_listed { IsErr result ↔ (Contains self.old.fails (one_more self.old.calls) ⊎ ((0 < length piece.now) × (self.old.room ≤ length self.old.written))) }
        ensures many { IfOk result (λ n. n ≡ min self.old.piece (min (length piece.now) (self.old.room - length self.old.written))) }
        ensures after { WriteLeaves self.old self.new piece.now result }
    {
        self.calls = self.calls.saturating_add(1);
        let left = self.room - self.written.len();
        if self.fails.contains(&self.calls) || (left == 0 && !piece.is_empty()) {
            self.faults = self.faults.saturating_add(1);
            return Err(Failed);
        }
        let n = self.piece.min(piece.len().min(left));
        match self.written.extend_from_slice(&piece[..n]) {
            Ok(()) => Ok(n),
            Err(_) => unreachable!(),
        }
    }
}
