//! How runs over a file system begin and end, less what a mount does: the password lines of the input, one or an old and a
//! new one, with the memory of a session, and the statuses of errors of opening and closing and of sessions.
#![tactic(auto)]

mod beginning;
mod one;
mod status;
mod two;

pub use beginning::{Beginning, begin};
pub use one::read_password;
pub use status::{closing_status, opening_status, session_status};
pub use two::{PasswordChange, copy_line, read_two_passwords};

// Handed on to crates above, which needn't list them.
pub use line_io;
pub use mount_stores;
pub use mount_stores::config_file;
pub use session_lines;
pub use session_lines::answers;
