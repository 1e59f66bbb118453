//! One file in and out of a tree: the bytes of an input as a new file, and the bytes of a file to an output. What is asked
//! for it, how that ends as a session, and what it leaves.
#![tactic(auto)]

mod ending;
mod get;
mod law;
mod put;

pub use ending::{get_end, tell_put};
pub use get::get_file;
pub use law::{get_ends, get_tells, get_tells_part, put_ends, put_leaves, put_leaves_part};
pub use put::put_file;

// Handed on to crates above, which needn't list them.
pub use copy_row;
pub use copy_sessions;
pub use copy_sessions::{answers, line_io, session_lines};
