//! A directory with a list of changes that aren't written yet, which answers first.
#![tactic(auto)]

mod redo_vault;

pub use redo_vault::RedoVault;
