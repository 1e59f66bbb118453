//! What a directory of sealed blocks holds, found from the root block on without a local record: for each block its client
//! and its version as its file names them. And these blocks as a store that is only read.
#![tactic(auto)]

mod ask;
mod discover;
mod fetch;
mod names;
mod rows;
mod search;
mod store;

pub use rows::{FoundRow, FoundRows};
pub use store::FoundStore;

// Handed on to crates above, which needn't list them.
pub use block_versions;
pub use block_versions::{local_state, redo_vault, sealed_store, store_api};
