//! Cutting a tree of blocks: what goes is dropped, and only the new right border is put.
#![tactic(auto)]

mod cutting;

pub use cutting::cut_root;
