//! A folder of the host, copied into a tree, and a tree, copied into a folder.
#![tactic(auto)]

mod exporting;
mod importing;
mod levels;
mod out_steps;
mod steps;

pub use exporting::export;
pub use importing::import;

// Handed on to crates above, which needn't list them.
pub use copy_row::{copy_laws, host_folder};
