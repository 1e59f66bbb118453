//! What the program takes from the system before it runs: its words, the clock, random bytes, its two folders, and that of a copy with its options.
#![tactic(auto)]

mod host_word;
mod inputs;
mod options;
mod record_use;
mod streams;

pub use inputs::Inputs;

// Handed on to crates above, which needn't list them.
pub use real_host_folder::host_folder;
pub use real_outside;
