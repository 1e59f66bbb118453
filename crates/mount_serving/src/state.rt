// What serving knows from one request to the next.

use crate::handles::Handles;
use crate::nodes::Nodes;
use block_id::{Memory, Why};
use fs_model::Moment;
use std::alloc::Global;

#[derive(Drop)]
pub(crate) struct State {
    pub nodes: Nodes,
    pub handles: Handles,
    /// The moment of the request that is answered.
    pub now: Moment,
    /// The moment of the first change since the last sync.
    pub changed: Option<Moment>,
    /// How many files were removed while they were open.
    pub removed: u64,
    /// The directory of these files was made.
    pub has_removed: bool,
    /// A violation that was not told yet.
    pub violation: Option<Why>,
}

impl State {
    /// Nothing is known but the root.
    pub fn new(alloc: Global, now: Moment) -> Result<State, Memory> {
        Ok(State {
            nodes: Nodes::new(alloc)?,
            handles: Handles::new(alloc),
            now,
            changed: None,
            removed: 0,
            has_removed: false,
            violation: None,
        })
    }
}
