//! Lines of a source, and whole texts into a sink.
#![tactic(auto)]

mod line_buffer;
mod reader;
mod writer;

pub use reader::{LineReader, NEWLINE};
pub use script_text::MAX_LINE;
pub use writer::write_all;
