//! Found blocks, each written anew under a new client with the payload that it was found with.
#![tactic(auto)]

mod renewing;

pub use renewing::renew_all;

// Handed on to crates above, which needn't list them.
pub use anew;
pub use found_blocks;
