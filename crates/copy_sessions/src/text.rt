// The text of a copy's end.
ghost use Rattle.std.specs.Prelude.{◌≡◌, ◌≤◌, ◌<◌, ℕ, List, [], length, vec_capacity, IfOk, OnOk, OnErr};
ghost use Rattle.copy_sessions.specs.Coming.{IsTold};
ghost use Rattle.copy_sessions.specs.Texts.{copy_text};

use crate::print::push_copy;
use crate::way::Way;
use block_id::Memory;
use copy_laws::{CopyFail, Totals};
use session_lines::answers::Answer;
use std::alloc::Global;
use std::marker::Model;

/// Bytes of a text that needs no memory: an escape has 4 for one, and a path that is copied to has a text of 4,096 at
/// most with a name more of 255.
pub const LONG_TEXT: usize = 20_480;

/// The text of a copy's end, with the memory for 20,480 bytes taken beforehand.
#[derive(Drop)]
pub struct CopyText {
    bytes: Vec<u8>,
}

impl Model for CopyText {
    ghost Value = { List ℕ };

    ghost view = { λ t. t.bytes.items };

    ghost invariant = { λ t. 20480 ≤ vec_capacity t.bytes };
}

impl CopyText {
    /// An empty text.
    pub fn new(alloc: Global) -> Result<CopyText, Memory>
        ensures { IfOk result (λ text. text ≡ []) }
    {
        Ok(CopyText {
            bytes: Vec::with_capacity(alloc, LONG_TEXT)?,
        })
    }

    /// Sets the text of an end. Memory comes only for one with more bytes than were taken beforehand.
    fn print(
        &mut self,
        way: Way,
        copied: &Result<Totals, CopyFail>,
        kept: &Option<Answer>,
    ) -> Result<(), Memory>
        ensures ok { OnOk result (self.new ≡ copy_text way copied.now kept.now) }
        ensures long { OnErr result (LONG_TEXT < length (copy_text way copied.now kept.now)) }
    {
        self.bytes.clear();
        push_copy(&mut self.bytes, way, copied, kept)
    }

    #[tactic(auto, unfolding(crate::specs::Texts::copy_text))]
    /// Sets the text of an end, and gives the end that it tells: one whose text finds no memory is told as want of it.
    pub fn tell(
        &mut self,
        way: Way,
        copied: Result<Totals, CopyFail>,
        kept: &Option<Answer>,
    ) -> Result<Totals, CopyFail>
        ensures text { self.new ≡ copy_text way result kept.now }
        ensures told { IsTold way copied kept.now result }
    {
        match self.print(way, &copied, kept) {
            Ok(()) => copied,
            Err(Memory) => {
                self.bytes.clear();
                Err(CopyFail::Memory)
            }
        }
    }

    /// The text.
    pub fn as_slice(&self) -> &[u8]
        ensures { result.now ≡ self.now }
    {
        &self.bytes
    }
}
