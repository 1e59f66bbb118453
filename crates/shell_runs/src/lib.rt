//! A session as a run of the program: the password line of the input, opening under it, what is asked, closing, and the
//! status. What is asked is a type: the lines of the input, generated commands, one line, or another crate's.
#![tactic(auto)]

mod asks;
mod beginning;
mod generated_commands;
mod mounted;
mod session;
mod shell_lines;
mod single_line;
mod turns;

pub use asks::{Answered, Asks};
pub use generated_commands::GeneratedCommands;
pub use mounted::Mounted;
pub use session::run_session;
pub use shell_lines::ShellLines;
pub use single_line::SingleLine;
pub use turns::{close, open};

// Handed on to crates above, which needn't list them.
pub use host_attributes;
pub use host_attributes::host_folder;
pub use session_laws::run_frame;
