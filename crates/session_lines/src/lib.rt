//! Sessions over whatever answers commands: the lines of an input, generated commands, or one line.
#![tactic(auto)]

mod end;
mod generate;
mod lines;
mod single;
mod tell;

pub use answers::{Answer, Host, Summary, TextBuffer};
pub use end::End;
pub use generate::answer_generated;
pub use lines::answer_lines;
pub use single::answer_single;

// Handed on to crates above, which needn't list them.
pub use answers;
pub use answers::script_text;
pub use line_io;
