//! What the kernel and a file system in a process say to each other, as <linux/fuse.h> lays it out: requests are read, and replies written.
#![tactic(auto)]

mod attributes;
mod error_number;
mod fields;
mod header;
mod laws;
mod operations;
mod reply;
mod reply_bodies;
mod request;
mod request_structures;
mod row;
mod structures;

pub use attributes::{put_attributes, put_entry};
pub use error_number::ErrorNumber;
pub use fields::take_name;
pub use header::take_header;
pub use laws::structures_have_one_reading;
pub use reply::{REPLY_HEADER, error_reply, finish_reply, start_reply};
pub use reply_bodies::{
    ENTRY_LEN, MAJOR, MAX_WRITE, VALID, put_init, put_kept_attributes, put_no_entry, put_opened,
    put_statistics, put_written,
};
pub use request::{Renaming, Request, read_request, take_forgotten};
pub use request_structures::{take_rename, take_set_attributes, take_span};
pub use row::{ROW_HEADER, put_row};
pub use structures::{
    Entry, NodeAttributes, RenameHead, RequestHeader, Row, SetAttributes, Span, Times,
};
