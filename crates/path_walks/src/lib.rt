//! What it means that blobs show a tree of paths, walks along paths over directories that are kept blob by blob, and a row's
//! entry set in its directory.
#![tactic(auto)]

mod entries;
mod names;
mod reaching;
mod replies;
mod spots;
mod touches;
mod walks;

pub use entries::{set_entry, set_entry_in, touched};
pub use names::split_last;
pub use reaching::{Reached, reach};
pub use replies::done;
pub use spots::{Folder, Occupancy, Place, Sight, Spot};
pub use touches::{is_same, touch, touch_both};
pub use walks::{advance, look_at, walk};

// Handed on to crates above, which needn't list them.
pub use dir_blob;
pub use dir_blob::{blob_api, dir_entries, fs_blobs};
pub use fs_model;
