//! A check of a whole file system: each live block is loaded once, and either each has its owner or something is wrong.
#![tactic(auto)]

mod checking;
mod owners;
mod place;
mod visiting;

pub use checking::{Checked, check};
pub use owners::{Owners, path_at};
pub use place::{Place, Visit, place_entries, visit_at};
pub use visiting::visit;

// Handed on to crates above, which needn't list them.
pub use check_rules::check_walk;
