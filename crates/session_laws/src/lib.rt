//! What a whole session over a mount is, from its opening to its end, and what a run did that opened none. The laws by which
//! a session's exchanges follow from those of the mount, and those of any list of runs over one file system: what each
//! leaves is what the next one needs. The calls are those of `shell_runs` and `setup_runs`: a crate with none loads little
//! of what lies below it.
#![tactic(auto)]

mod forgeries;
mod law;

pub use forgeries::replies_stay_right;
pub use law::{honest_runs_are_unforged, runs_compose};

// Handed on to crates above, which needn't list them.
pub use mount;
pub use mount::{aes_gcm, config_file, local_state, record_saver, store_api};
pub use run_frame;
pub use run_frame::{answers, session_lines};
