//! The fields of which the formats consist: numbers of 2, 4 and 8 bytes, low byte first, and ids. Each is put behind bytes,
//! and taken off the front of bytes; every crate that writes or reads a layout does it by these.
#![tactic(auto)]

mod laws;
mod reading;
mod writing;

pub use laws::{fields_of_bytes, fields_of_numbers};
pub use reading::{
    id_of, take_array, take_bytes, take_id, take_u16, take_u32, take_u64, u16_of, u32_of, u64_of,
};
pub use writing::{put_id, put_u16, put_u32, put_u64};
