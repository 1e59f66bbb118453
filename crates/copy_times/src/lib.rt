//! Attributes of a folder's rows, carried into a tree and out of it.
#![tactic(auto)]

mod asking;
mod giving;
mod inward;
mod law;
mod looking;
mod outward;
mod paths;

pub use inward::carry_in;
pub use law::gives_all;
pub use outward::carry_out;

// Handed on to crates above, which needn't list them.
pub use host_attributes;
