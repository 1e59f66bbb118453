//! Byte lists under ids, each in the left-filled tree of its blocks.
#![tactic(auto)]

mod store;

pub use store::BlobStore;

// Handed on to crates above, which needn't list them.
pub use blob_api;
pub use data_ranges;
pub use data_ranges::data_reads;
pub use data_tree;
pub use data_tree::data_nodes;
pub use store_api;
