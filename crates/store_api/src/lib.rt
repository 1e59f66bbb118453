//! A store of blocks as traits, an overlay over a store, and batches: changes of blocks, which are made all or none.
#![tactic(auto)]

mod batch;
mod blocks;
mod draft;
mod durable;
mod fresh;
mod tx;

pub use batch::{Batch, BatchChange};
pub use blocks::{ApplyError, Blocks, BlocksMut};
pub use draft::Draft;
pub use durable::Durable;
pub use tx::Tx;
