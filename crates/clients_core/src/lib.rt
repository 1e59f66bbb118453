//! What one client of a file system that several write has seen of its blocks: which versions it takes, and which were
//! overtaken. No block is opened here.
#![tactic(auto)]

mod others;
mod seen;
mod stale;
mod worlds;

pub use local_state::Triple;
pub use others::{Author, Others};
pub use seen::Seen;
pub use stale::{SealFail, Stale, TakeFail};
pub use worlds::{WorldStep, world};
