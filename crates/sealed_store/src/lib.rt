//! Sealed block files over a directory with changes that aren't written yet.
#![tactic(auto)]

mod drafts;
mod sealed_store;
mod seeing;
mod seen;
mod sums;
mod waiting;

pub use sealed_store::{SEAL_LEN, SealedStore};
pub use seen::Seen;

// Handed on to crates above, which needn't list them.
pub use redo_vault;
