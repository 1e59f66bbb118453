//! Commands on what rows have, their attributes and contents, on the tree that blobs show.
#![tactic(auto)]

mod attributes;
mod changes;
mod content;
mod listing;
mod places;
mod reading;

pub use attributes::set_attributes;
pub use content::{truncate, write};
pub use reading::{list, read, read_link, stat};

// Handed on to crates above, which needn't list them.
pub use path_walks::{dir_blob, dir_entries, fs_blobs, fs_model};
