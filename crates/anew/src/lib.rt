//! Blocks that are written anew under the number of a client that nobody was before, and why the record of that client is then
//! sound over all calls there ever were.
#![tactic(auto)]

mod beginning;
mod law;
mod writing;

pub use beginning::{Owner, begin, finish};
pub use law::sound_anew;
pub use writing::renew;

// Handed on to crates above, which needn't list them.
pub use integrity_store;
