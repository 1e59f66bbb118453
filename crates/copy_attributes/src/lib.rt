//! A folder of the host and its attributes, copied into a tree, and a tree with its attributes, copied into a folder.
#![tactic(auto)]

mod inward;
mod law;
mod outward;

pub use inward::import_with_attributes;
pub use law::{attributed_copy_is_same, attributed_export_leaves, attributed_import_leaves};
pub use outward::export_with_attributes;

// Handed on to crates above, which needn't list them.
pub use copy_times;
pub use copy_times::host_attributes;
pub use tree_copy;
