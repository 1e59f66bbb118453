//! The local record of a file system, and the versions of blocks that are known.
#![tactic(auto)]

mod known;
mod laws;
mod life;
mod lives;
mod reading;
mod state;
mod triple;
mod writing;

pub use known::{Known, Spent};
pub use laws::{mark_stands_at_19, one_reading};
pub use life::Life;
pub use reading::{comes_after, decode, flag_of, known_of, least_of, name_of};
pub use state::{Form, State, StateError, key_digest};
pub use triple::Triple;
pub use writing::{MAGIC_LEN, MAGIC_NEWER, MARK_PLACE, encode, encode_form1};
