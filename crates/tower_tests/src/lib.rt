//! Stores of sealed blocks over a directory and a local record in memory: what a client sees after rollbacks, faults and
//! stops, and what its own loads and changes over such a store answer. Beside these tests one function is proved, over any
//! directory and record: what was put and synced is loaded by a store that is opened anew.
#![tactic(auto)]

#[cfg(test)]
mod attacks;
#[cfg(test)]
mod changes;
#[cfg(test)]
mod orders;
#[cfg(test)]
mod promises;
mod reopening;
#[cfg(test)]
mod sessions;
#[cfg(test)]
mod site;
#[cfg(test)]
mod stories;
#[cfg(test)]
mod tower;
#[cfg(test)]
mod words;

pub use reopening::{Reopened, Seal, put_reopen_load, reopen};

// Handed on to crates above, which needn't list them.
pub use integrity_store;
pub use memory_stores;
pub use record_saver;
