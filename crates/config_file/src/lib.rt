//! The configuration file: what a file system is made of, sealed twice under a password.
#![tactic(auto)]

mod config;
mod error;
mod format;
mod json_reading;
mod json_writing;
mod keys;
mod open;
mod seal;

pub use config::{Cipher, Config, Opened};
pub use error::ConfigError;
pub use format::FILE_LEN;
pub use open::open_config;
pub use seal::{SealDraws, seal_config};

// Handed on to crates above, which needn't list them.
pub use aes_gcm;
