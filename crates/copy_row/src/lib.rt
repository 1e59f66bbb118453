//! One row of a folder, copied into a tree, or of a tree, copied into a folder: its commands, a file's bytes in pieces.
#![tactic(auto)]

mod asking;
mod bytes;
mod bytes_out;
mod making;
mod paths;
mod place;
mod replies;
mod rows;
mod rows_out;
mod stop;
mod totals;

pub use asking::ask_done;
pub use bytes::{PIECE, write_piece};
pub use bytes_out::FILE_END;
pub use paths::{child_of, copy_path, is_short};
pub use place::RowPlace;
pub use replies::ask_rows;
pub use rows::{copy_row, make_file};
pub use rows_out::row_out;
pub use stop::Stop;
pub use totals::{count, no_totals};

// Handed on to crates above, which needn't list them.
pub use copy_laws;
pub use copy_laws::host_folder;
