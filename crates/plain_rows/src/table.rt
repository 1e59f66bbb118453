// The rows of a tree, seen as the tree.
ghost use Rattle.std.specs.Prelude.{◌≡◌, ℕ, ◌≤◌, ◌++◌, List, ◌∷◌, false, map, IsSome, IfOk, OnOk, OnErr, None, Some};
ghost use Rattle.std.specs.Option.{option_map};
ghost use Rattle.std.specs.FinMap as tree;
ghost use Rattle.fs_model.specs.declared.limits.TheConstants.{MAX_ENTRIES};
ghost use Rattle.fs_model.specs.Tree.{empty_tree, upward, parent, is_root, children};
ghost use Rattle.fs_model.specs.Tree as model;
ghost use Rattle.fs_model.specs.Step as step;
ghost use Rattle.plain_rows.specs.Moves.{IsBelowMoved};

use crate::edit::{insert_row, place_of, remove_row, set_row};
use crate::read::{list_rows, row_of, size_of};
use crate::rename::rename_below;
use crate::rows::Folder;
use block_id::Memory;
use fs_model::{Attr, ListRow, Name};
use std::alloc::Global;
use std::marker::Model;

/// A tree's rows: sorted directories, each with its rows in order. The root's row stands apart and stays.
#[derive(Drop)]
pub struct Table {
    folders: Vec<Box<Folder>>,
}

impl Model for Table {
    ghost use Rattle.fs_model.specs.Tree.{Tree};
    ghost use Rattle.fs_model.specs.Codes.{tree_code};

    ghost Value = { Tree };

    ghost coded = { tree_code };

    ghost use Rattle.plain_rows.specs.Rows.{tree_of};
    ghost use Rattle.plain_rows.specs.Formed.{IsOrdered};

    ghost view = { λ t. tree_of t.folders.items };

    ghost invariant = { λ t. IsOrdered t.folders.items };
}

impl Table {
    /// The root alone.
    pub fn new(alloc: Global) -> Table
        ensures { result ≡ empty_tree }
    {
        Table {
            folders: Vec::new(alloc),
        }
    }

    /// The allocator.
    pub fn allocator(&self) -> Global {
        *self.folders.allocator()
    }

    /// The attributes and the bytes of a path's row.
    pub fn row(&self, names: &[Name]) -> Option<(Attr, &[u8])>
        ensures { option_map (λ row. record { attr = row.0; bytes = row.1.now }) result ≡ tree.get self.now (upward names.now) }
    {
        row_of(&self.folders, names)
    }

    /// The bytes that the entries of a directory take.
    pub fn size(&self, names: &[Name]) -> u64
        ensures { result ≡ model.directory_size self.now (upward names.now) }
    {
        size_of(&self.folders, names)
    }

    /// Kind and name of each child.
    pub fn list(&self, alloc: Global, names: &[Name]) -> Result<Vec<ListRow>, Memory>
        ensures { IfOk result (λ rows. rows.items ≡ map step.list_row (tree.entries (children self.now (upward names.now)))) }
    {
        list_rows(alloc, &self.folders, names)
    }

    /// A new row, in a directory that isn't past its limit.
    pub fn insert(&mut self, names: &[Name], attr: Attr, bytes: Vec<u8>) -> Result<(), Memory>
        requires named { is_root (upward names.now) ≡ false }
        requires absent { tree.get self.old (upward names.now) ≡ None }
        requires room { model.directory_size self.old (parent (upward names.now)) ≤ MAX_ENTRIES }
        ensures ok { OnOk result (self.new ≡ tree.insert self.old (upward names.now) (record { attr = attr; bytes = bytes.items })) }
        ensures err { OnErr result (self.new ≡ self.old) }
    {
        insert_row(&mut self.folders, names, attr, bytes)
    }

    /// A row goes, and what may be below it stays. Its bytes are the result.
    pub fn remove(&mut self, names: &[Name]) -> Vec<u8>
        requires named { is_root (upward names.now) ≡ false }
        requires there { IsSome (tree.get self.old (upward names.now)) }
        ensures bytes { option_map (λ row. row.bytes) (tree.get self.old (upward names.now)) ≡ Some result.items }
        ensures tree { self.new ≡ tree.remove self.old (upward names.now) }
    {
        let Some(at) = place_of(&self.folders, names) else {
            unreachable!();
        };
        remove_row(&mut self.folders, names, at)
    }

    /// Another row at a path that has one. The bytes that stood there are the result.
    pub fn set(&mut self, names: &[Name], attr: Attr, bytes: Vec<u8>) -> Vec<u8>
        requires named { is_root (upward names.now) ≡ false }
        requires there { IsSome (tree.get self.old (upward names.now)) }
        ensures bytes { option_map (λ row. row.bytes) (tree.get self.old (upward names.now)) ≡ Some result.items }
        ensures tree { self.new ≡ tree.insert self.old (upward names.now) (record { attr = attr; bytes = bytes.items }) }
    {
        let Some(at) = place_of(&self.folders, names) else {
            unreachable!();
        };
        set_row(&mut self.folders, names, at, attr, bytes)
    }

    /// All that is below `from` moves below `to`, where nothing is. The row of `from` stays.
    pub fn rename_below(&mut self, from: &[Name], to: &[Name]) -> Result<(), Memory>
        requires bare { (s : model.Path) (n : List ℕ) → tree.get self.old (n ∷ (s ++ upward to.now)) ≡ None }
        ensures ok { OnOk result (IsBelowMoved self.old self.new (upward from.now) (upward to.now)) }
        ensures err { OnErr result (self.new ≡ self.old) }
    {
        rename_below(&mut self.folders, from, to)
    }
}
