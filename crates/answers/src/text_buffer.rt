// The text of an answer.
ghost use Rattle.std.specs.Prelude.{◌≡◌, ◌⊎◌, ◌≤◌, ◌*◌, ◌^◌, ℕ, List, [], length, vec_capacity, IfOk, OnOk, OnErr};
ghost use Rattle.answers.specs.Summaries.{counts_of, text_of_summary, IsSmall};
ghost use Rattle.answers.specs.Texts.{text_of_answer};
ghost use Rattle.answers.specs.Telling.{IsTold, MayWant};

use crate::print::print_answer;
use crate::summary::push_summary;
use crate::{Answer, Summary};
use block_id::Memory;
use std::alloc::Global;
use std::marker::Model;

/// Bytes of a text that needs no memory.
pub const SHORT_TEXT: usize = 256;

/// The text of one answer, with the memory for 256 bytes taken beforehand.
#[derive(Drop)]
pub struct TextBuffer {
    bytes: Vec<u8>,
}

impl Model for TextBuffer {
    ghost Value = { List ℕ };

    ghost view = { λ t. t.bytes.items };

    ghost invariant = { λ t. 256 ≤ vec_capacity t.bytes };
}

impl TextBuffer {
    /// An empty text.
    pub fn new(alloc: Global) -> Result<TextBuffer, Memory>
        ensures { IfOk result (λ text. text ≡ []) }
    {
        Ok(TextBuffer {
            bytes: Vec::with_capacity(alloc, SHORT_TEXT)?,
        })
    }

    /// Sets a text of up to 256 bytes.
    pub fn set(&mut self, text: &[u8])
        requires { length text.now ≤ 256 }
        ensures { self.new ≡ text.now }
    {
        self.bytes.clear();
        match self.bytes.extend_from_slice(text) {
            Ok(()) => {}
            Err(_) => unreachable!(),
        }
    }

    /// Sets the text of an answer. Memory comes only for rows, attributes, a target or a content.
    fn print(&mut self, answer: &Answer) -> Result<(), Memory>
        ensures ok { OnOk result (self.new ≡ text_of_answer answer.now) }
        ensures memory { OnErr result (MayWant answer.now) }
    {
        self.bytes.clear();
        print_answer(answer, &mut self.bytes)
    }

    #[tactic(auto, unfolding(crate::specs::Texts::text_of_answer))]
    /// Sets the text of an answer, and gives the answer that it tells: a reply of rows, attributes, a target or a content
    /// whose text finds no memory is told as `Memory`.
    pub fn tell(&mut self, answer: Answer) -> Answer
        ensures text { self.new ≡ text_of_answer result }
        ensures told { IsTold answer result }
    {
        match self.print(&answer) {
            Ok(()) => answer,
            Err(Memory) => {
                self.set(b"memory\n");
                Answer::Memory
            }
        }
    }

    /// Sets the line of a summary, of up to 1,000,000 answers.
    pub fn sum_up(&mut self, summary: &Summary)
        requires few { summary.now.lines ≤ 1000000 }
        requires small { IsSmall (counts_of summary.now) }
        ensures { self.new ≡ text_of_summary (counts_of summary.now) }
    {
        self.bytes.clear();
        match push_summary(&mut self.bytes, summary) {
            Ok(()) => {}
            Err(Memory) => unreachable!(),
        }
    }

    /// The text.
    pub fn as_slice(&self) -> &[u8]
        ensures { result.now ≡ self.now }
    {
        &self.bytes
    }
}
