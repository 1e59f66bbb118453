//! The program's own run, over its two folders, from a reader to a writer, after any calls that were made on the block
//! folder; and the headline in one sentence, of any list of calls of the program's `run` over one file system.
#![tactic(auto)]

mod call;
mod law;
mod run;

pub use call::run_call;
pub use cryfs_shell::Request;
pub use law::{every_list_of_runs, newest_stays, one_run};
pub use run::run_program;

// Handed on to crates above, which needn't list them.
pub use program_inputs;
pub use real_outside;
