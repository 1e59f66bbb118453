// Directories that are open, each with its rows as they were when it was opened.

use block_id::Memory;
use fs_model::RowList;
use std::alloc::Global;
use std::collections::HashMap;

#[derive(Drop)]
pub(crate) struct Handles {
    lists: HashMap<u64, RowList>,
    last: u64,
}

impl Handles {
    pub fn new(alloc: Global) -> Handles {
        Handles {
            lists: HashMap::new(alloc),
            last: 0,
        }
    }

    /// A new handle of these rows.
    pub fn open(&mut self, rows: RowList) -> Result<u64, Memory> {
        let handle = self.last.saturating_add(1);
        let _none = self.lists.insert(handle, rows)?;
        self.last = handle;
        Ok(handle)
    }

    pub fn rows(&self, handle: u64) -> Option<&RowList> {
        self.lists.get(&handle)
    }

    pub fn close(&mut self, handle: u64) {
        let _rows = self.lists.remove(&handle);
    }
}
