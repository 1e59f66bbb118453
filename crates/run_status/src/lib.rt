//! What a run of the program is over, and how it ends.
#![tactic(auto)]

mod ended;
mod status;
mod storage;

pub use ended::Ended;
pub use status::Status;
pub use storage::Storage;
