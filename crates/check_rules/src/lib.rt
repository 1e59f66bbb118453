//! What a check of a file system may find: who owns each block, or what is wrong with one; and that a flaw is one in each content that has what was given.
#![tactic(auto)]

mod law;

pub use law::{flaw_refutes, given_agrees, owners_own, unowned_is_flaw, walk_flaw_is_flaw};

// Handed on to crates above, which needn't list them.
pub use check_walk;
pub use check_walk::store_api;
pub use path_walks::{dir_entries, fs_blobs};
