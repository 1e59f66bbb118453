// Which place owns each live block.
ghost use Rattle.std.specs.Prelude.{◌≡◌, ◌<◌, T, map, length, IfOk, IfErr};
ghost use Rattle.std.specs.FinMap.{is_sorted};
ghost use Rattle.std.specs.List.{slice_get};
ghost use Rattle.std.specs.Option.{option_map};
ghost use Rattle.data_tree.specs.store_api.Content.{id_cmp};
ghost use Rattle.plain_rows.specs.Sorted.{IsElementAt, IsGap};
ghost use Rattle.check_walk.specs.Marks.{mark_entry, unmarked, first_unowned, OnReaching};

use block_id::{BlockId, Memory};
use std::alloc::Global;
use std::cmp::Ordering;
use std::marker::Model;

/// A live block and its owner.
#[derive(Clone, Copy)]
pub struct Mark {
    pub id: BlockId,
    /// The number of the place that owns the block, or 0.
    pub owner: u32,
}

/// How a block is reached.
#[derive(Clone, Copy)]
pub enum Reaching {
    /// For the first time.
    First,
    /// It has an owner already.
    Twice,
    /// It isn't live.
    NotLive,
}

/// The live blocks, by increasing ids, each with the number of the place that owns it, or 0.
#[derive(Drop)]
pub struct Marks {
    marks: Vec<Mark>,
}

impl Model for Marks {
    ghost use Rattle.std.specs.Prelude.{T, map};
    ghost use Rattle.std.specs.FinMap.{is_sorted};
    ghost use Rattle.data_tree.specs.store_api.Content.{id_cmp};
    ghost use Rattle.check_walk.specs.Marks.{mark_entry, MarkList};

    ghost Value = { MarkList };

    ghost view = { λ m. map mark_entry m.marks.items };

    ghost invariant = { λ m. T (is_sorted id_cmp (map mark_entry m.marks.items)) };
}

fn cmp_ids(a: &BlockId, b: &BlockId) -> Ordering
    ensures { result ≡ id_cmp a.now.0 b.now.0 }
{
    a.cmp(b)
}

/// Where the block's mark stands, or would stand.
fn find_mark(marks: &[Mark], id: &BlockId) -> Result<usize, usize>
    requires { T (is_sorted id_cmp (map mark_entry marks.now)) }
    ensures found { IfOk result (IsElementAt id_cmp mark_entry marks.now id.now.0) }
    ensures absent { IfErr result (IsGap id_cmp mark_entry marks.now id.now.0) }
{
    marks.binary_search_by(|mark| cmp_ids(&mark.id, id))
}

/// The block of the first mark without an owner.
fn find_unowned(marks: &[Mark]) -> Option<BlockId>
    ensures { option_map (λ id. id.0) result ≡ first_unowned (map mark_entry marks.now) }
{
    for mark in marks {
        if mark.owner == 0 {
            return Some(mark.id);
        }
    }
    None
}

impl Marks {
    /// These live blocks, none of which has an owner yet.
    pub fn new(alloc: Global, live: &[BlockId]) -> Result<Marks, Memory>
        requires { T (is_sorted id_cmp (map unmarked live.now)) }
        ensures { IfOk result (λ marks. marks ≡ map unmarked live.now) }
    {
        let mut marks = Vec::with_capacity(alloc, live.len())?;
        for id in live {
            marks.push(Mark { id: *id, owner: 0 })?;
        }
        Ok(Marks { marks })
    }

    /// Gives the block this owner, unless it has one or doesn't live.
    pub fn reach(&mut self, id: &BlockId, owner: u32) -> Reaching
        requires { 0 < owner }
        ensures { OnReaching self.old self.new id.now.0 owner result }
    {
        match find_mark(&self.marks, id) {
            Ok(i) => {
                if self.marks[i].owner != 0 {
                    return Reaching::Twice;
                }
                self.marks[i] = Mark { id: *id, owner };
                Reaching::First
            }
            Err(_) => Reaching::NotLive,
        }
    }

    /// How many live blocks there are.
    pub fn len(&self) -> usize
        ensures { result ≡ length self.now }
    {
        self.marks.len()
    }

    /// The mark of this number.
    pub fn get(&self, i: usize) -> Option<Mark>
        ensures { option_map mark_entry result ≡ slice_get self.now i }
    {
        self.marks.get(i).copied()
    }

    /// The first block without an owner.
    pub fn unowned(&self) -> Option<BlockId>
        ensures { option_map (λ id. id.0) result ≡ first_unowned self.now }
    {
        find_unowned(&self.marks)
    }
}
