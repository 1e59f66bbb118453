//! The entries of a directory as bytes: one after the other, in the order of their names.
#![tactic(auto)]

mod decode;
mod edit;
mod encode;
mod entry;
mod place;

pub use decode::{decode_entries, one_reading};
pub use edit::{Edit, renaming};
pub use encode::{encode_entries, put_entry};
pub use entry::Entry;
pub use place::{Located, locate};
