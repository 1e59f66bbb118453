//! A folder of this machine for a copy: read from, or filled and flushed.
#![tactic(auto)]

mod attributes;
mod error;
mod host;
mod listing;
mod place;
mod progress;
mod telling;
mod text;
mod way;

pub use host::RealHost;

// Handed on to crates above, which needn't list them.
pub use host_attributes;
pub use host_attributes::host_folder;
