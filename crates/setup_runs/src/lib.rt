//! The runs beside sessions: making a file system, telling of one, changing its password and writing its blocks anew, each
//! under the password lines of the input; and what each prints.
#![tactic(auto)]

mod create;
mod create_text;
mod end;
mod info;
mod info_text;
mod migrate;
mod migrate_text;
mod passwd;
mod passwd_text;
mod print;

pub use create::run_create;
pub use create_text::report_created;
pub use info::run_info;
pub use info_text::{MAX_TEXT, print_info};
pub use migrate::run_migrate;
pub use migrate_text::print_migrated;
pub use mount_calls::{close, condemn};
pub use passwd::run_passwd;
pub use passwd_text::report_changed;
pub use session_laws::mount::Mount;
pub use shell_runs::open;

// Handed on to crates above, which needn't list them.

pub use session_laws::{record_saver, run_frame};
