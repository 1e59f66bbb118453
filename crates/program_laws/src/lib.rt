//! Laws of the program that nothing calls. Over a directory that gives what was last written, where nothing fails, each run
//! does what it is to do, or finds no memory. What is kept stands for one tree at most. And a run in memory, over a
//! directory, a record, an input and an output that are honest by their types: what it answers needs no premise.
#![tactic(auto)]

mod calls;
mod honest_keeper;
mod honest_sink;
mod honest_source;
mod honest_vault;
mod kept_tree_law;
mod law;
mod memory_run;

pub use calls::calls_complete;
pub use honest_keeper::HonestKeeper;
pub use honest_sink::HonestSink;
pub use honest_source::HonestSource;
pub use honest_vault::HonestVault;
pub use kept_tree_law::{one_shown, one_tree};
pub use law::{
    answers_complete, checks_complete, migrations_complete, premises_are_met, sessions_complete,
    setups_complete,
};
pub use memory_run::run_in_memory;

// Handed on to crates above, which needn't list them.
pub use session_laws;
