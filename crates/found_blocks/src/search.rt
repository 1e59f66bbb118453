// Which blocks were asked for, and which were found.
ghost use Rattle.std.specs.Prelude.{◌≡◌, [], T, IfOk, OnOk, OnErr};
ghost use Rattle.std.specs.FinMap.{is_sorted};
ghost use Rattle.std.specs.FinMap.Entries.{put};
ghost use Rattle.store_api.specs.Content.{id_cmp};
ghost use Rattle.found_blocks.specs.Rows.{author_of, entries_in};
ghost use Rattle.found_blocks.specs.Searching.{Noted, keys_in};

use crate::rows::{FoundRow, FoundRows};
use block_id::{BlockId, Memory};
use std::alloc::Global;
use std::collections::BTreeMap;
use std::marker::Model;

/// The blocks that were asked for, and those of them that were found, in trees: one more takes few steps, whichever it is.
#[derive(Drop)]
pub(crate) struct Search {
    asked: BTreeMap<BlockId, (), Global>,
    found: BTreeMap<BlockId, FoundRow, Global>,
}

impl Model for Search {
    ghost use Rattle.std.specs.Prelude.{T};
    ghost use Rattle.std.specs.FinMap.{is_sorted};
    ghost use Rattle.store_api.specs.Content.{id_cmp};
    ghost use Rattle.found_blocks.specs.Rows.{entries_in};
    ghost use Rattle.found_blocks.specs.Searching.{SearchState, keys_in};

    ghost Value = { SearchState };

    ghost view = { λ s. record { asked = keys_in s.asked.entries; rows = entries_in s.found.entries } };

    ghost invariant = { λ s. T (is_sorted id_cmp (entries_in s.found.entries)) };
}

/// Has an id asked for, unless it was before.
fn note_in(asked: &mut BTreeMap<BlockId, (), Global>, id: &BlockId) -> Result<bool, Memory>
    ensures ok { IfOk result (Noted (keys_in asked.old.entries) (keys_in asked.new.entries) id.now.0) }
    ensures err { OnErr result (asked.new.entries ≡ asked.old.entries) }
{
    if asked.contains_key(id) {
        return Ok(false);
    }
    asked.insert(*id, ())?;
    Ok(true)
}

/// Has a block found.
fn add_to(found: &mut BTreeMap<BlockId, FoundRow, Global>, row: FoundRow) -> Result<(), Memory>
    ensures ok { OnOk result (entries_in found.new.entries ≡ put id_cmp row.id.0 (author_of row) (entries_in found.old.entries)) }
    ensures err { OnErr result (found.new.entries ≡ found.old.entries) }
{
    found.insert(row.id, row)?;
    Ok(())
}

impl Search {
    /// None so far.
    pub fn new(alloc: Global) -> Search
        ensures { result ≡ record { asked = []; rows = [] } }
    {
        Search {
            asked: BTreeMap::new(alloc),
            found: BTreeMap::new(alloc),
        }
    }

    /// Has an id asked for, unless it was before: whether it is new.
    pub fn note(&mut self, id: &BlockId) -> Result<bool, Memory>
        ensures ok { IfOk result (Noted self.old.asked self.new.asked id.now.0) }
        ensures err { OnErr result (self.new.asked ≡ self.old.asked) }
        ensures rows { self.new.rows ≡ self.old.rows }
    {
        note_in(&mut self.asked, id)
    }

    /// Has a block found.
    pub fn add(&mut self, row: FoundRow) -> Result<(), Memory>
        ensures ok { OnOk result (self.new.rows ≡ put id_cmp row.id.0 (author_of row) self.old.rows) }
        ensures err { OnErr result (self.new.rows ≡ self.old.rows) }
        ensures asked { self.new.asked ≡ self.old.asked }
    {
        add_to(&mut self.found, row)
    }

    /// The found blocks.
    pub fn into_rows(self, alloc: Global) -> Result<FoundRows, Memory>
        ensures { IfOk result (λ rows. rows ≡ self.rows) }
    {
        let Search { found, .. } = self;
        let mut tree = found;
        FoundRows::of_tree(alloc, &mut tree)
    }
}
