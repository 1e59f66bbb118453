//! AES-256, the block cipher of FIPS 197 with keys of 32 bytes: on one block as the standard writes it, and on sixteen at a
//! time, with no look-up that depends on the key or the blocks.
#![tactic(auto)]

mod bits_sub_word;
mod cipher;
mod key_planes;
mod key_schedule;
mod planes;
mod rounds;
mod sbox;
mod sub_bytes;
mod sub_word;
mod transposition;
mod vectors;

pub use key_planes::KeyPlanes;
pub use key_schedule::KeySchedule;
pub use sub_word::SubWord;
