//! The record in a block's file, as bytes, and the verdict on what came for a block: its payload, or the first reason
//! against it. And what a directory, a local record and an unwritten list hold of blocks with versions, and what a forged
//! file is. No store of blocks is named.
#![tactic(auto)]

mod block_record;
mod held_blocks_laws;
mod laws;
mod verdict;

pub use block_record::{HEAD_LEN, Head, OVERHEAD, RECORD_FORMAT, read_head, write_record};
pub use held_blocks_laws::config_is_no_block;
pub use laws::{fronts_as_wholes, records_as_texts};
pub use verdict::judge;

// Handed on to crates above, which needn't list them.
pub use local_state;
pub use sealed_store;
pub use sealed_store::redo_vault;
pub use store_api;
