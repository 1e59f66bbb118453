//! A cache over any store of blocks: the payloads that were loaded last stay in memory, at most a given number of them, and are
//! answered without a call on the store below. Memory is taken as payloads come.
#![tactic(auto)]

mod cache;
mod payloads;

pub use cache::BlockCache;

// Handed on to crates above, which needn't list them.
pub use store_api;
