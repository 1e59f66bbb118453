//! The record of a client of a file system that several write: a record of form 2 with the versions of the others behind it.
//! It is recognised without memory.
#![tactic(auto)]

mod entries;
mod front;
mod laws;
mod others;
mod rows;
mod shared;
mod split;

pub use laws::{one_shared, shared_splits, splits_are_shared};
pub use others::{decode_others, encode_others};
pub use shared::{SharedRecord, decode_shared, encode_shared};
pub use split::split_shared;

// Handed on to crates above, which needn't list them.
pub use clients_core;
