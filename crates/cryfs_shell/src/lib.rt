//! The program's top call: words, lines and answers.
#![tactic(auto)]

mod program;
mod request;

pub use program::run;
pub use request::Request;
pub use run_status::{Ended, Status, Storage};

// Handed on to crates above, which needn't list them.
pub use check_runs::outside;
pub use copy_runs::{host_attributes, host_folder};
pub use session_laws;
pub use session_laws::{aes_gcm, config_file, local_state};
