//! The tree in memory: its step for every command, on a table of rows.
#![tactic(auto)]

mod change;
mod edit;
mod look;
mod moves;
mod read;
mod tree;

pub use block_id::Memory;
pub use tree::PlainTree;
