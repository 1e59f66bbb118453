//! Work on ranges of trees of blocks: writing inside the length changes only the leaves of the range, growing changes
//! the right border and adds new blocks, and cutting drops blocks and changes the right border that stays.
#![tactic(auto)]

mod over;
mod ranges;

pub use ranges::{resize, write_range};

// Handed on to crates above, which needn't list them.
pub use data_reads;
