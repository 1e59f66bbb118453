//! The outside as traits with a written meaning: input, output, the block directory and the names in it, the local record.
#![tactic(auto)]

mod byte_line;
mod change;
mod directory_names;
mod file_names;
mod keeper;
mod kept_record;
mod sink;
mod source;
mod vault;

pub use block_id::{Failed, Memory};
pub use byte_line::ByteLine;
pub use change::{Change, FileName, Pending};
pub use directory_names::{Listing, MAX_NAMES};
pub use file_names::file_text;
pub use keeper::{Keeper, WholeKeeper};
pub use kept_record::KeptRecord;
pub use sink::Sink;
pub use source::Source;
pub use vault::{GetFail, Vault};
