//! The outside in memory, for tests: input, output, the block directory, the local record, whose calls can be made to fail.
#![tactic(auto)]

mod event;
mod file_names;
mod memory_keeper;
mod memory_sink;
mod memory_source;
mod memory_vault;

pub use event::Event;
pub use memory_keeper::MemoryKeeper;
pub use memory_sink::MemorySink;
pub use memory_source::MemorySource;
pub use memory_vault::MemoryVault;

// Handed on to crates above, which needn't list them.
pub use outside;
pub use pending_list;
