//! The rows of a tree in memory: a sorted list of directories, each with its rows sorted by name.
#![tactic(auto)]

mod edit;
mod find;
mod folder;
mod moved;
mod read;
mod rename;
mod rows;
mod table;

pub use block_id::Memory;
pub use folder::name_size;
pub use table::Table;

// Handed on to crates above, which needn't list them.
pub use fs_model;
