//! The stores that a mount runs over: opened by a record and the configuration that its list or the directory gives, and made
//! for a new file system, with what is drawn for that; and why none is opened or made.
#![tactic(auto)]

mod draws;
mod error;
mod making;
mod opening;
mod tower;

pub use draws::{Draws, draw_seal};
pub use error::{OpenError, open_error};
pub use making::{NewStore, ask_absent, new_store};
pub use opening::{MAX_CONFIG, Opening, Unread, open_store};
pub use tower::{Cached, into_vault};

// Handed on to crates above, which needn't list them.
pub use config_file;
pub use config_file::aes_gcm;
pub use record_saver;
