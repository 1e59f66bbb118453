//! Reads a file system's files with its password alone: no local record is asked, and nothing is written. Its blocks are found
//! from the root block on, and commands that only look are answered over them.
#![tactic(auto)]

mod finding;
mod host;
mod run;

pub use finding::{Unbegun, find_files};
pub use host::Looked;
pub use run::run_look;

// Handed on to crates above, which needn't list them.
pub use found_blocks;
