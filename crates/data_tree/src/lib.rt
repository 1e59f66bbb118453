//! Left-filled trees of nodes over the changes of a command: each holds a list of bytes under the id of its root.
#![tactic(auto)]

mod building;
mod dropping;
mod level;
mod nodes;

pub use building::{build, build_children, new_below};
pub use dropping::{drop_children, drop_in};
pub use level::{Level, MOST_BYTES, depth_of, level_for, level_of};
pub use nodes::{load_at, load_head, load_root, put_new, put_node, remove};

// Handed on to crates above, which needn't list them.
pub use data_nodes;
pub use store_api;
