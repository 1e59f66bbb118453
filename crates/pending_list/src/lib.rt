//! Lists of changes of files, by increasing names: what isn't written yet, or what a directory holds.
#![tactic(auto)]

mod in_order;
mod list;
mod merging;

pub use in_order::{is_in_order, lookup_in_order, set_in_order};
pub use list::{cut, cut_change, is_same, lookup, set};
pub use merging::merge;
