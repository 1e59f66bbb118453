// Input that stands in memory.
ghost use Rattle.std.specs.Prelude.{◌≡◌, ◌≤◌, ◌↔◌, ◌+◌, ℕ, List, [], length, drop, IfOk, OnErr, IsErr, Contains};
ghost use Rattle.std.specs.declared.option.Option.TheVariants.{Some};
ghost use Rattle.outside.specs.Causes.{one_more};
ghost use Rattle.memory_outside.specs.Faults.{FailsWithCause};
ghost use Rattle.memory_outside.specs.MemoryStreams.{Feed, TookOnce, TakesNext, GivesMany, GivesNone};

use block_id::Failed;
use outside::Source;
use std::marker::Model;

/// Bytes, given in pieces; listed calls fail.
#[derive(Drop)]
pub struct MemorySource {
    bytes: Vec<u8>,
    given: usize,
    piece: usize,
    fails: Vec<u64>,
    calls: u64,
    faults: u64,
}

impl Model for MemorySource {
    ghost Value = { Feed };

    ghost view = { λ s. record { rest = drop s.given s.bytes.items; piece = s.piece; fails = s.fails.items; calls = s.calls; faults = s.faults } };

    ghost invariant = { λ s. (1 ≤ s.piece) × (s.given ≤ length s.bytes.items) };
}

impl MemorySource {
    /// Gives at most `piece` bytes a call. The calls whose numbers, counted from 1, are in `fails` fail.
    pub fn new(bytes: Vec<u8>, piece: usize, fails: Vec<u64>) -> MemorySource
        requires { 1 ≤ piece }
        ensures { result ≡ record { rest = bytes.items; piece = piece; fails = fails.items; calls = 0; faults = 0 } }
    {
        MemorySource {
            bytes,
            given: 0,
            piece,
            fails,
            calls: 0,
            faults: 0,
        }
    }
}

impl Source for MemorySource {
    ghost rest = { λ s. Some s.rest };

    ghost faults = { λ s. s.faults };

    ghost took = { λ old new bytes. TookOnce old new bytes };

    fn read(&mut self, piece: &mut [u8]) -> Result<usize, Failed>
        ensures next { IfOk result (λ n. TakesNext self.old self.new piece.old piece.new n) }
        ensures none { OnErr result (GivesNone self.old self.new piece.old piece.new) }
        ensures cause { FailsWithCause self.old.faults self.new.faults result }
        ensures fails_as_listed { IsErr result ↔ Contains self.old.fails (one_more self.old.calls) }
        ensures many { IfOk result (λ n. GivesMany self.old self.new piece.old piece.new n) }
    {
        self.calls = self.calls.saturating_add(1);
        if self.fails.contains(&self.calls) {
            self.faults = self.faults.saturating_add(1);
            return Err(Failed);
        }
        let left = self.bytes.len() - self.given;
        let n = self.piece.min(piece.len().min(left));
        piece[..n].copy_from_slice(&self.bytes[self.given..self.given + n]);
        self.given += n;
        Ok(n)
    }
}
