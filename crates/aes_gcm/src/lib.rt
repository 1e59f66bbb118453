//! AES-256 in Galois/Counter Mode (SP 800-38D), and the sealer that it makes.
#![tactic(auto)]

mod aes256_gcm;
mod counter;
mod gcm;
mod gcm_key;
mod hash_key;
mod key_stream;

pub use aes256_gcm::{Aes256Gcm, append_sealed};
pub use gcm::{gcm_seal, gcm_unseal};
pub use gcm_key::GcmKey;
