//! A copy as a session: what it asks of what answers commands, what is told of it at its end, and what it leaves.
#![tactic(auto)]

mod asking;
mod escapes;
mod law;
mod print;
mod status;
mod telling;
mod text;
mod way;

pub use asking::{ask_host, reply_of};
pub use escapes::push_escaped;
pub use law::{
    copy_follows, export_ends, export_leaves, export_leaves_part, import_ends, import_leaves,
};
pub use print::push_path;
pub use status::stopped_status;
pub use telling::tell_copy;
pub use text::{CopyText, LONG_TEXT};
pub use way::Way;

// Handed on to crates above, which needn't list them.
pub use session_lines;
pub use session_lines::{answers, line_io, script_text};
