//! The blocks of an opened file system as a store of their own: each load asks the directory, past the cache, and leaves all
//! that the mount holds beside its store.
#![tactic(auto)]

mod examined;

pub use examined::Examined;

// Handed on to crates above, which needn't list them.
pub use mount;
pub use mount::{config_file, mount_stores};
