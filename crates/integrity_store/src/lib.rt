//! The store of blocks that notices rollback: payloads in sealed files, each with its id, its client and a version that only
//! rises, over a directory that may give whatever it likes. A batch of changes waits there as drafts of files under their
//! next versions, and as removals.
#![tactic(auto)]

mod apply;
mod durable;
mod raising;
mod sealing;
mod store;
mod zeros;

pub use raising::{count_new, raise_or_bury_all, some_spent};
pub use sealing::draft_all;
pub use store::IntegrityStore;

// Handed on to crates above, which needn't list them.
pub use block_versions;
pub use block_versions::{redo_vault, sealed_store, store_api};
pub use local_state;
