//! File systems as they lie in folders. One that an earlier program made (`golden.py`) opens, shows what was written into
//! it, puts what waits in its record, and each damage of a block has its verdict; new ones in the older forms, which are
//! made here, are changed and migrated; and one is made and used by the program's own run over real folders. All is for
//! tests.
#![tactic(auto)]

#[cfg(test)]
mod damage;
#[cfg(test)]
mod migrating;
mod old_forms_older;
#[cfg(test)]
mod older;
#[cfg(test)]
mod opening;
#[cfg(test)]
mod orders;
#[cfg(test)]
mod program;
#[cfg(test)]
mod stored;
#[cfg(test)]
mod stories;
#[cfg(test)]
mod system;

pub use old_forms_older::{Stored, in_older_forms};

// Handed on to crates above, which needn't list them.
pub use config_file;
pub use config_file::aes_gcm;
pub use memory_outside;
