//! Nodes of the trees that hold blobs, and the payloads that they are written as.
#![tactic(auto)]

mod head;
mod node;
mod reading;
mod writing;

pub use head::{Head, read_head};
pub use node::{HEADER_LEN, ID_LEN, NODE_FORMAT, Node};
pub use reading::{one_reading, read_node};
pub use writing::write_node;
