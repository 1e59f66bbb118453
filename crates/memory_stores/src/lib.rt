//! Small stores in memory, of blocks and of byte lists, for tests and for trying what stands above a store. And clients of
//! any store: a command over it, which shows that the contracts of stores suffice, and a payload under an id of the caller's
//! choice.
#![tactic(auto)]

mod blobs_rows;
mod blobs_store;
mod bytes;
mod client;
mod putting;
mod rows;
mod store;

pub use blobs_store::MapBlobs;
pub use client::follow;
pub use putting::put_one;
pub use store::MapStore;

// Handed on to crates above, which needn't list them.
pub use blob_api;
pub use store_api;
