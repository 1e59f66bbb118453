//! What copies of folders and of single files ask in a session.
#![tactic(auto)]

mod asker;
mod carrying;
mod export;
mod get;
mod import;
mod put;

pub use asker::MountAsker;
pub use export::{Export, ExportTimes};
pub use get::Get;
pub use import::{Import, ImportTimes};
pub use put::Put;
pub use shell_runs::{GeneratedCommands, ShellLines, SingleLine, run_session};

// Handed on to crates above, which needn't list them.
pub use copy_attributes::host_attributes;
pub use copy_attributes::tree_copy::host_folder;
