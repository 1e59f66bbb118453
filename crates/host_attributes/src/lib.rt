//! A folder of the host whose rows have attributes: a mode, an owner, and moments.
#![tactic(auto)]

mod attributed;
mod row;

pub use attributed::Attributed;
pub use row::AttributedRow;

// Handed on to crates above, which needn't list them.
pub use host_folder;
