// Found blocks by their ids.
ghost use Rattle.std.specs.Prelude.{◌≡◌, ◌<◌, ◌^◌, [], T, map, length, is_some, IfOk, IfErr, OnOk};
ghost use Rattle.std.specs.FinMap.{is_sorted};
ghost use Rattle.std.specs.List.{slice_get};
ghost use Rattle.std.specs.Option.{option_map};
ghost use Rattle.block_id.specs.Fresh.{IsFirstFree};
ghost use Rattle.plain_rows.specs.Sorted.{IsElementAt, IsGap};
ghost use Rattle.store_api.specs.Content.{id_cmp};
ghost use Rattle.store_api.specs.Holdings.{IsFew, has_id, is_free};
ghost use Rattle.found_blocks.specs.Rows.{author_in, author_of, entries_in, ids_in, row_entry};

use block_id::{BlockId, Memory};
use std::alloc::Global;
use std::cmp::Ordering;
use std::collections::BTreeMap;
use std::marker::Model;

/// A found block: the client that its file names, and the version.
#[derive(Clone, Copy)]
pub struct FoundRow {
    pub id: BlockId,
    /// From 1.
    pub client: u32,
    /// From 1.
    pub version: u64,
}

/// Found blocks by rising ids, one row for each.
#[derive(Drop)]
pub struct FoundRows {
    rows: Vec<FoundRow>,
}

impl Model for FoundRows {
    ghost use Rattle.std.specs.Prelude.{T, map};
    ghost use Rattle.std.specs.FinMap.{is_sorted};
    ghost use Rattle.store_api.specs.Content.{id_cmp};
    ghost use Rattle.found_blocks.specs.Rows.{Authors, row_entry};

    ghost Value = { Authors };

    ghost view = { λ r. map row_entry r.rows.items };

    ghost invariant = { λ r. T (is_sorted id_cmp (map row_entry r.rows.items)) };
}

fn cmp_ids(a: &BlockId, b: &BlockId) -> Ordering
    ensures { result ≡ id_cmp a.now.0 b.now.0 }
{
    a.cmp(b)
}

/// Where the block's row stands, or would stand.
fn find_row(rows: &[FoundRow], id: &BlockId) -> Result<usize, usize>
    requires { T (is_sorted id_cmp (map row_entry rows.now)) }
    ensures found { IfOk result (IsElementAt id_cmp row_entry rows.now id.now.0) }
    ensures absent { IfErr result (IsGap id_cmp row_entry rows.now id.now.0) }
{
    rows.binary_search_by(|row| cmp_ids(&row.id, id))
}

impl FoundRows {
    /// No rows.
    pub fn new(alloc: Global) -> FoundRows
        ensures { result ≡ [] }
    {
        FoundRows {
            rows: Vec::new(alloc),
        }
    }

    /// The row of this block.
    pub fn find(&self, id: &BlockId) -> Option<FoundRow>
        ensures { option_map author_of result ≡ author_in self.now id.now.0 }
    {
        match find_row(&self.rows, id) {
            Ok(place) => Some(self.rows[place]),
            Err(_) => None,
        }
    }

    /// Whether the block has a row.
    pub fn has(&self, id: &BlockId) -> bool
        ensures { result ≡ has_id (ids_in self.now) id.now.0 }
    {
        self.find(id).is_some()
    }

    /// How many rows there are, each with a greater id than the one before.
    pub fn len(&self) -> usize
        ensures count { result ≡ length self.now }
        ensures rise { T (is_sorted id_cmp self.now) }
    {
        self.rows.len()
    }

    /// The row of this number, by rising ids.
    pub fn get(&self, number: usize) -> Option<FoundRow>
        ensures { option_map row_entry result ≡ slice_get self.now number }
    {
        self.rows.get(number).copied()
    }

    /// The first id that is neither zero nor that of a row among `drawn`, the next one and so on.
    pub fn fresh(&self, drawn: BlockId) -> BlockId
        requires { IsFew (ids_in self.now) }
        ensures { IsFirstFree (is_free (ids_in self.now)) drawn.0 result.0 }
    {
        let mut id = drawn;
        loop {
            if self.is_free(&id) {
                return id;
            }
            id = id.next();
        }
    }

    fn is_free(&self, id: &BlockId) -> bool
        ensures { result ≡ is_free (ids_in self.now) id.now.0 }
    {
        !self.has(id) && !id.cmp(&BlockId([0; 16])).is_eq()
    }

    /// The rows of a tree, which is empty then.
    pub(crate) fn of_tree(
        alloc: Global,
        tree: &mut BTreeMap<BlockId, FoundRow, Global>,
    ) -> Result<FoundRows, Memory>
        requires rising { T (is_sorted id_cmp (entries_in tree.old.entries)) }
        ensures rows { IfOk result (λ rows. rows ≡ entries_in tree.old.entries) }
    {
        let mut rows = Vec::with_capacity(alloc, tree.len())?;
        while let Some((id, row)) = tree.pop_first() {
            rows.push(FoundRow { id, ..row })?;
        }
        Ok(FoundRows { rows })
    }
}
