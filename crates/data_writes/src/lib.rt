//! Writing inside the length of a tree of blocks: only the leaves that hold a place of the range change.
#![tactic(auto)]

mod writing;

pub use writing::{write_below, write_in};
