// What a run is over.

/// The block directory and the local record.
pub struct Storage<V, K> {
    pub vault: V,
    pub keeper: K,
}
