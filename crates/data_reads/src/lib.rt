//! The calls on trees of blocks: length, reading, making, dropping, and writing a tree anew.
#![tactic(auto)]

mod length;
mod part;
mod reading;
mod rewriting;
mod tree;

pub use length::len_in;
pub use part::{Part, append_part};
pub use reading::{read_below, read_in};
pub use tree::{drop_tree, len, new_tree, read_range, resize, write_range};

// Handed on to crates above, which needn't list them.
pub use data_tree;
pub use data_tree::{data_nodes, store_api};
