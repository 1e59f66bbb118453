//! Directories as blobs: calls that read and change the entries in a blob's body.
#![tactic(auto)]

mod bodies;
mod changes;
mod reads;
mod renames;

pub use bodies::body_without;
pub use changes::{change, change_in, insert, insert_in, remove, remove_in};
pub use reads::{entries, find_in, find_target, whole_body};
pub use renames::rename;

// Handed on to crates above, which needn't list them.
pub use dir_entries;
pub use fs_blobs;
pub use fs_blobs::blob_api;
