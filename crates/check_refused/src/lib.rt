//! A survey of a store's blocks: each is asked for once, and those that aren't given are told.
//!
//! The paths that these blocks belong to, as far as the blocks that are given say so.
#![tactic(auto)]

mod exploring;
mod finding;
mod reading;
mod survey;

pub use exploring::explore_blob;
pub use finding::find_paths;
pub use survey::{Ungiven, survey_blocks};

// Handed on to crates above, which needn't list them.
pub use check_walk;
pub use check_walk::store_api;
pub use cryfs_check;
