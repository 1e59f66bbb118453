//! Runs on a new plain tree: the lines of an input, or generated commands.
#![tactic(auto)]

mod trial;
mod trials;

pub use trial::Trial;
pub use trials::{try_generated, try_lines};
