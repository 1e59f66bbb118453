//! Commands and replies as text. A line is read by a grammar, and each refusal is the first one in its order.
//! A reply prints as lines, which can be read in one way only.
#![tactic(auto)]

mod digits;
mod error;
mod escapes;
mod grammar;
mod hex_digits;
mod law;
mod numbers;
mod paths;
mod print;
mod verb;
mod words;

pub use digits::{push_bytes, push_decimal, push_numeral};
pub use error::{LineError, PathError};
pub use grammar::{MAX_LINE, parse_line};
pub use law::{bad_lines_have_no_form, texts_have_one_reading};
pub use numbers::number;
pub use paths::parse_path;
pub use print::print_reply;
