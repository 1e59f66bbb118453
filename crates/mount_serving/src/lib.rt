//! Serves whatever answers commands to the kernel, by its protocol for file systems in processes: each request is answered by commands on paths before
//! the next one is taken.
#![tactic(auto)]

mod asking;
mod attributes;
mod channel;
mod handles;
mod looking;
mod making;
mod nodes;
mod opening;
mod paths;
mod removing;
mod renaming;
mod rows;
mod serving;
mod setting;
mod since;
mod state;
mod turns;

pub use serving::{End, Served, serve};

// Handed on to crates above, which needn't list them.
pub use answers;
pub use fuse_messages;
