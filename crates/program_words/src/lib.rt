//! The words that the program is called with, and what they ask for: the options of `create` are among them, and the paths of copies.
#![tactic(auto)]

mod copies;
mod create_command;
mod create_options;
mod form;
mod line;
mod words;

pub use create_options::{CreateOptions, parse_create_options};
pub use form::Form;
pub use line::joined;
pub use words::{MAX_GENERATE, read_form};
