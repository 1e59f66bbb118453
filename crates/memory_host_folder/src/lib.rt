//! A folder of the host in memory, for tests: it tells its tree, and its calls can be made to fail. And rows that tests make
//! in folders of the host and look for there, over any folder.
#![tactic(auto)]

mod attributes;
mod looks;
mod memory_folder;
mod rows;
mod table_rows;

pub use looks::{has_rows, holds, leads};
pub use memory_folder::MemoryFolder;
pub use rows::{Row, appends, fills_small, makes, path};

// Handed on to crates above, which needn't list them.
pub use host_attributes;
pub use host_attributes::host_folder;
