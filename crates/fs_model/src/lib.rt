//! Names, paths, commands and replies of the tree language, and the definition of its step. And rules that the tree in
//! memory and the tree of blobs share: attributes, lengths, and the order and prefixes of names.
#![tactic(auto)]

mod attr;
mod attributes;
mod bytes;
mod command;
mod error;
mod kind;
pub mod laws;
mod limits;
mod moment;
mod name;
mod path;
mod paths;
mod reply;
mod tree_rules_lengths;

pub use attr::{Attr, DIRECTORY_MODE, FILE_MODE, Kind, LINK_MODE};
pub use attributes::{AttrChange, changed, new_attr, root_attr};
pub use block_id::Memory;
pub use bytes::ByteText;
pub use command::{Command, has_zero};
pub use error::FsError;
pub use kind::{kind_byte, kind_from};
pub use limits::{
    ENTRY_SIZE, MAX_ENTRIES, MAX_FILE, MAX_GROWTH, MAX_MODE, MAX_NAME, MAX_PATH_TEXT, MAX_READ,
    MAX_TARGET, NANOS_PER_SEC,
};
pub use moment::Moment;
pub use name::{Name, has_dots_alone, has_name_form};
pub use path::Path;
pub use paths::{cmp_names, has_prefix, is_above, same_names};
pub use reply::{ListRow, Reply, RowList};
pub use tree_rules_lengths::is_too_long;
