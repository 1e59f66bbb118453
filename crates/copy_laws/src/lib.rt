//! What a copy of a folder asks, what it ends with, and what its commands leave.
#![tactic(auto)]

mod asker;
mod copied;
mod law;

pub use asker::{Asker, Stopped};
pub use copied::{CopyFail, Totals};
pub use law::{
    copy_is_same, done_import_merges, export_is_part, export_is_same, import_is_same, import_merges,
};

// Handed on to crates above, which needn't list them.
pub use host_folder;
