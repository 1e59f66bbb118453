//! A folder of the host as a trait with a written meaning: its tree of kinds and bytes.
#![tactic(auto)]

mod folder;

pub use folder::Folder;
