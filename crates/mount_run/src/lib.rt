//! A mount as a run: the password line, opening under it, the kernel's requests as what is asked, closing, and the status.
#![tactic(auto)]

mod requests;
mod run;

pub use requests::MountRequests;
pub use run::run_mount;
