//! Has each block of a file system written anew as a file of the newest format, and the record say that no older one is taken.
#![tactic(auto)]

mod error;
mod migrating;
mod raising;
mod renewing;

pub use error::MigrateError;
pub use migrating::migrate_ids;

// Handed on to crates above, which needn't list them.
pub use mount_answering;
pub use mount_answering::{record_saver, script_text};
