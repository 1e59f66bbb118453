//! What a check prints: the live blocks with their owners, the names that are no file of theirs, or what is wrong. Long texts
//! are written in pieces.
#![tactic(auto)]

mod counting;
mod error;
mod flaws;
mod owners;
mod page;
mod refused;
mod strangers;
mod surveys;
mod telling;

pub use flaws::{print_flaw, print_violation};
pub use page::{FULL_PAGE, Page};
pub use surveys::tell_survey;
pub use telling::tell_verdict;

// Handed on to crates above, which needn't list them.
pub use outside;
