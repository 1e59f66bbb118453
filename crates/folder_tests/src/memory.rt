// A directory, a record, input and output in memory, whose calls a story is.
use crate::memory_keeper::on_record;
use crate::memory_streams::{Streams, new_streams, on_streams};
use crate::memory_vault::on_directory;
use crate::stories::{Order, Stage, play};
use memory_outside::{MemoryKeeper, MemoryVault};
use std::alloc::Global;
use std::test::Fail;

#[derive(Drop)]
struct Memory {
    alloc: Global,
    vault: MemoryVault,
    keeper: MemoryKeeper,
    streams: Streams,
}

/// Whether an order on the directory or the record comes out, where it is one.
fn on_both(memory: &mut Memory, order: &Order<'_>) -> Option<bool> {
    match on_directory(memory.alloc, &mut memory.vault, order) {
        Some(came_out) => Some(came_out),
        None => on_record(memory.alloc, &mut memory.keeper, order),
    }
}

impl Stage for Memory {
    fn takes(&mut self, order: &Order<'_>) -> Option<bool> {
        match on_both(self, order) {
            Some(came_out) => Some(came_out),
            None => on_streams(&mut self.streams, order),
        }
    }
}

/// A story of an empty directory, no record, and the input and the output of `memory_streams`.
pub fn play_memory(alloc: Global, lines: &str) -> Result<(), Fail> {
    let mut memory = Memory {
        alloc,
        streams: new_streams(alloc).ok_or("no memory")?,
        vault: MemoryVault::new(alloc),
        keeper: MemoryKeeper::new(alloc, None, Vec::new(alloc)),
    };
    play(&mut memory, lines)
}
