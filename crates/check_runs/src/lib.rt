//! The run of a check: a file system is opened, each of its blocks is loaded from the directory and judged, what is kept is
//! marked after a flaw or a violation, it is closed, and what was found is told. A law ties what a walk was given to the
//! calls on the directory: where nothing waits, one get for each payload, and its verdict.
#![tactic(auto)]

mod examining;
mod law;
mod running;
mod survey_run;
mod surveying;

pub use examining::{Examination, examine};
pub use law::gave_reads;
pub use running::run_check;
pub use setup_runs::{run_create, run_info, run_migrate, run_passwd};
pub use survey_run::run_survey;
pub use surveying::{Survey, survey_under};

// Handed on to crates above, which needn't list them.
pub use check_texts::outside;
