//! Growing a tree of blocks: only its right border changes, and new blocks stand behind it.
#![tactic(auto)]

mod growing;
mod raising;

pub use growing::grown_node;
pub use raising::raised;
