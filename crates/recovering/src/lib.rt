//! A new local record for a file system whose record is lost, of what its directory holds: each block is written anew under a new
//! client, what was written is checked, and then its record is kept.
#![tactic(auto)]

mod keeping;
mod restoring;

pub use keeping::{Unkept, keep};
pub use restoring::restore;

// Handed on to crates above, which needn't list them.
pub use anew;
