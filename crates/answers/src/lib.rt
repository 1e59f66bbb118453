//! Answers to commands: what they are, how they print, what a session of them is, and what gives them.
#![tactic(auto)]

mod answer;
mod host;
mod law;
mod print;
mod summary;
mod text_buffer;

pub use answer::Answer;
pub use host::Host;
pub use law::{refuses_after_violation, texts_have_one_reading};
pub use print::print_answer;
pub use summary::Summary;
pub use text_buffer::{SHORT_TEXT, TextBuffer};

// Handed on to crates above, which needn't list them.
pub use script_text;
