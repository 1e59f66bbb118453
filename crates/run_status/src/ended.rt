// What a run gives back.
use crate::Status;

/// How a run ended, with the block directory and the local record that it was given.
#[derive(Drop)]
pub struct Ended<V, K> {
    pub status: Status,
    pub vault: V,
    pub keeper: K,
}
