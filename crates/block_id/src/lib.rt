//! Ids of blocks, the formats and sizes of their files, and the ways in which a call fails.
#![tactic(auto)]

mod fail;
mod format;
mod id;
mod sizes;

pub use fail::{Fail, Failed, Memory, Why};
pub use format::Format;
pub use id::BlockId;
pub use sizes::{MAX_BLOCK, MIN_BLOCK, MIN_PAYLOAD};
