//! A walk over the blocks of one blob's tree: each is loaded once and marked with its owner, and the first bytes of the blob
//! are kept. It says what holds of every content that agrees with what was loaded, and stops at the first flaw.
#![tactic(auto)]

mod flaw;
mod front;
mod marks;
mod walk;

pub use flaw::{Flaw, Halt};
pub use front::Front;
pub use marks::{Mark, Marks, Reaching};
pub use walk::walk_root;

// Handed on to crates above, which needn't list them.
pub use data_tree::{data_nodes, store_api};
