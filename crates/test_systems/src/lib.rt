//! What tests of whole runs share: a block directory and a local record in memory, runs over them with the texts and the
//! statuses that they have to give, and changes of the stored files that no run makes.
#![tactic(auto)]

mod random;
mod rows;
mod stored;
mod system;

pub use random::{Words, ZEROS};
pub use rows::{ask, play, play_anew, play_beside, take};
pub use run_status::Status;
pub use stored::{block, copy_files, count_blocks, file, first_made, store};
pub use system::{
    CREATED, Run, System, expect, expect_beside, failing_saves, mended, new_system, nothing,
    outcome, outcome_beside, plain, script, session,
};

// Handed on to crates above, which needn't list them.
pub use cryfs_shell::{aes_gcm, config_file, local_state};
pub use memory_host_folder;
pub use memory_outside;
pub use memory_outside::outside;
