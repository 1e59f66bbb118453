//! Commands that change which rows the tree has, on the tree that blobs show.
#![tactic(auto)]

mod beside;
mod changes;
mod empty;
mod folders;
mod made;
mod making;
mod moves;
mod moving;
mod removing;

pub use empty::empty_root;
pub use making::{make_directory, make_file, make_link};
pub use moving::move_row;
pub use removing::{remove_directory, remove_file};
