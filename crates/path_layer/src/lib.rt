//! Commands on the tree of files that the blocks of a store show, and on the tree that any blobs show.
#![tactic(auto)]

mod blobs;
mod commands;

pub use blob_store::BlobStore;
pub use blobs::perform_on_blobs;
pub use commands::{empty_root, perform};

// Handed on to crates above, which needn't list them.
pub use blob_store;
pub use blob_store::{data_ranges, data_reads};
pub use path_contents::{dir_blob, dir_entries, fs_blobs};
pub use path_rows;
