//! Blobs of the file system: a header with kind and parent, and a body.
#![tactic(auto)]

mod body;
mod header;

pub use body::{blob_header, body_len, new_blob, read_body, resize_body, set_parent, write_body};
pub use header::{BLOB_FORMAT, HEADER_LEN, Header, header_bytes, one_header, read_header};

// Handed on to crates above, which needn't list them.
pub use blob_api;
