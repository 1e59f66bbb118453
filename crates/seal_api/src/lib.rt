//! Authenticated sealing of texts, as a trait with a written meaning.
#![tactic(auto)]

mod sealer;

pub use sealer::Sealer;
