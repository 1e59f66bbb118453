//! Commands made from numbers: a workload of any length on one tree.
#![tactic(auto)]

mod groups;

pub use groups::generated;
