//! HMAC and PBKDF2 over SHA-256, and scrypt, exact to their standards (RFC 2104, RFC 8018, RFC 7914).
//! scrypt takes one buffer of 128 * N * r bytes, and nothing else that grows with N.
#![tactic(auto)]

mod hmac;
mod kdf;
mod mix;
mod order;
mod params;
mod pbkdf;
mod salsa;

pub use hmac::hmac_sha256;
pub use kdf::scrypt;
pub use mix::{mix_blocks, ro_mix};
pub use params::{BadParams, Params};
pub use pbkdf::pbkdf2;
pub use salsa::salsa20_8;
