// A folder in memory.
ghost use Rattle.std.specs.Prelude.{◌≡◌, ◌⊎◌, ◌<◌, ◌≤◌, ◌+◌, ◌++◌, ◌^◌, ◌||◌, ℕ, List, [], false, true, not, is_err, IfOk, IfSome, OnOk, OnErr, IsTrue, length, take, option_map, Some, None};
ghost use Rattle.std.specs.FinMap.{get, insert};
ghost use Rattle.outside.specs.Causes.{GetHasCause, RoseBy, one_more};
ghost use Rattle.fs_model.specs.declared.attr.Kind.TheVariants.{Link};
ghost use Rattle.fs_model.specs.Fitting.{is_target};
ghost use Rattle.host_attributes.specs.host_folder.Folders.{IsHostTree, RowsRise, AreRowsOf, IsFileAt, IsLinkAt, IsMade, IsAppended, HasTarget};
ghost use Rattle.host_attributes.specs.Attributes.{AreWithin, IsSet, rows_in};
ghost use Rattle.memory_host_folder.specs.States.{is_listed, list_fails, read_fails, link_fails, make_fails, is_failed, with_rows, none_yet, OnlyCounts};

use crate::attributes::{attributed_rows, dress};
use crate::table_rows::{
    add_row, copied, copy_from, longer, root_table, row_at, rows_of, set_file,
};
use block_id::{Failed, Memory};
use fs_model::{Attr, ByteText, Kind, MAX_ENTRIES, Path, RowList};
use host_attributes::host_folder::Folder;
use host_attributes::{Attributed, AttributedRow};
use outside::GetFail;
use plain_rows::Table;
use std::alloc::Global;
use std::marker::Model;

/// A folder in memory. Calls can be made to fail.
#[derive(Drop)]
pub struct MemoryFolder {
    table: Table,
    failing: Vec<u64>,
    calls: u64,
    faults: u64,
}

impl Model for MemoryFolder {
    ghost use Rattle.memory_host_folder.specs.States.{FolderState, folder_code};

    ghost Value = { FolderState };

    ghost coded = { folder_code };

    ghost use Rattle.host_attributes.specs.host_folder.Folders.{IsHostTree};
    ghost use Rattle.memory_host_folder.specs.Told.{told_by};

    ghost view = { λ f. record {
      rows = f.table;
      tree = told_by f.table;
      failing = f.failing.items;
      calls = f.calls;
      faults = f.faults;
    } };

    ghost invariant = { λ f. IsHostTree (told_by f.table) };
}

impl MemoryFolder {
    /// A folder without rows, of which no call fails.
    pub fn new(alloc: Global) -> MemoryFolder
        ensures { result ≡ none_yet }
    {
        MemoryFolder {
            table: root_table(alloc),
            failing: Vec::new(alloc),
            calls: 0,
            faults: 0,
        }
    }

    /// Makes the calls of these numbers fail, counted from 1 from here on.
    pub fn fail_calls(&mut self, list: Vec<u64>)
        ensures { self.new ≡ record self.old { failing = list.items; calls = 0 } }
    {
        self.failing = list;
        self.calls = 0;
    }

    /// Whether the next call is made to fail.
    fn is_failing(&self) -> bool
        ensures value { result ≡ is_listed self.now }
        ensures tree { IsHostTree self.now.tree }
    {
        let number = self.calls.saturating_add(1);
        self.failing.contains(&number)
    }

    /// Counts a call with its answer.
    fn count<T>(&mut self, answer: &Result<T, GetFail>)
        ensures tree { self.new.tree ≡ self.old.tree }
        ensures rows { self.new.rows ≡ self.old.rows }
        ensures counts { (self.new.failing ≡ self.old.failing) × (self.new.calls ≡ one_more self.old.calls) }
        ensures cause { GetHasCause self.old.faults self.new.faults answer.now }
    {
        self.calls = self.calls.saturating_add(1);
        match answer {
            Ok(_) => {}
            Err(GetFail::Memory) => {}
            Err(GetFail::Failed) => {
                self.faults = self.faults.saturating_add(1);
            }
        }
    }

    /// Counts a read with its answer.
    fn count_read(&mut self, answer: &Result<usize, Failed>)
        ensures tree { self.new.tree ≡ self.old.tree }
        ensures rows { self.new.rows ≡ self.old.rows }
        ensures counts { (self.new.failing ≡ self.old.failing) × (self.new.calls ≡ one_more self.old.calls) }
        ensures grows { self.old.faults ≤ self.new.faults }
        ensures cause { OnErr answer.now (RoseBy 1 self.old.faults self.new.faults) }
        ensures quiet { OnOk answer.now (self.new.faults ≡ self.old.faults) }
    {
        self.calls = self.calls.saturating_add(1);
        match answer {
            Ok(_) => {}
            Err(Failed) => {
                self.faults = self.faults.saturating_add(1);
            }
        }
    }

    /// The kind and the bytes of what stands there.
    fn row(&self, path: &Path) -> Option<(Kind, &[u8])>
        ensures row { option_map (λ row. record { kind = row.0; bytes = row.1.now }) result ≡ get self.now.tree path.now }
        ensures tree { IsHostTree self.now.tree }
        ensures link { IfSome result (λ row. row.0 ≡ Link → IsTrue (is_target row.1.now)) }
    {
        row_at(&self.table, path.names())
    }

    /// Whether a row may be made there: nothing stands there, in a directory.
    fn has_place(&self, path: &Path) -> bool
        ensures { result ≡ not (make_fails self.now.tree path.now) }
    {
        let names = path.names();
        if names.is_empty() {
            return false;
        }
        let last = names.len() - 1;
        match row_at(&self.table, names) {
            Some(_) => return false,
            None => {}
        }
        match row_at(&self.table, &names[..last]) {
            Some((kind, _)) => match kind {
                Kind::Directory => true,
                Kind::File => false,
                Kind::Link => false,
            },
            None => false,
        }
    }

    /// What a listing answers.
    fn rows(&self, alloc: Global, path: &Path) -> Result<RowList, GetFail>
        ensures order { IfOk result RowsRise }
        ensures tree { IsHostTree self.now.tree }
        ensures ok { IfOk result (λ rows. AreRowsOf self.now.tree path.now rows) }
        ensures exact { is_failed result ≡ list_fails self.now path.now }
    {
        if self.is_failing() {
            return Err(GetFail::Failed);
        }
        match self.row(path) {
            Some((Kind::Directory, _)) => {}
            _ => return Err(GetFail::Failed),
        }
        match rows_of(alloc, &self.table, path.names()) {
            Ok(rows) => Ok(rows),
            Err(Memory) => Err(GetFail::Memory),
        }
    }

    /// What a read answers.
    fn read_at(&self, path: &Path, from: u64, piece: &mut [u8]) -> Result<usize, Failed>
        ensures bound { IfOk result (λ n. n ≤ length piece.old) }
        ensures far { IfOk result (λ n. 0 < n → from + n ≤ 2 ^ 63) }
        ensures ok { IfOk result (λ n. IsFileAt self.now.tree path.now from n piece.old piece.new) }
        ensures exact { is_err result ≡ read_fails self.now path.now }
    {
        if self.is_failing() {
            return Err(Failed);
        }
        match self.row(path) {
            Some((Kind::File, bytes)) => Ok(copy_from(bytes, from, piece)),
            _ => Err(Failed),
        }
    }

    /// A link's target.
    fn target(&self, alloc: Global, path: &Path) -> Result<ByteText, GetFail>
        ensures fits { IfOk result (λ text. IsTrue (is_target text)) }
        ensures ok { IfOk result (λ text. IsLinkAt self.now.tree path.now text) }
        ensures exact { is_failed result ≡ link_fails self.now path.now }
    {
        if self.is_failing() {
            return Err(GetFail::Failed);
        }
        match self.row(path) {
            Some((Kind::Link, bytes)) => match copied(alloc, bytes) {
                Ok(bytes) => Ok(ByteText::new(bytes)),
                Err(Memory) => Err(GetFail::Memory),
            },
            _ => Err(GetFail::Failed),
        }
    }

    /// Makes the row. A directory past the limit of its entries takes no more.
    fn put(
        &mut self,
        alloc: Global,
        path: &Path,
        kind: Kind,
        target: &ByteText,
    ) -> Result<(), Memory>
        requires place { make_fails self.old.tree path.now ≡ false }
        requires target { HasTarget kind target.now }
        ensures ok { OnOk result (self.new.tree ≡ insert self.old.tree path.now (record { kind = kind; bytes = target.now })) }
        ensures rest { self.new ≡ with_rows self.old self.new.rows self.new.tree }
        ensures err { OnErr result (self.new ≡ self.old) }
        ensures free { get self.old.tree path.now ≡ None }
    {
        path.holds_names();
        let names = path.names();
        if names.is_empty() {
            unreachable!();
        }
        let last = names.len() - 1;
        if self.table.size(&names[..last]) > MAX_ENTRIES {
            return Err(Memory);
        }
        let bytes = target.as_slice().to_vec(alloc)?;
        add_row(&mut self.table, names, kind, bytes)
    }

    /// What making a row answers.
    fn make_row(
        &mut self,
        alloc: Global,
        path: &Path,
        kind: Kind,
        target: &ByteText,
    ) -> Result<(), GetFail>
        requires { HasTarget kind target.now }
        ensures ok { OnOk result (IsMade (Some self.old.tree) (Some self.new.tree) path.now kind target.now) }
        ensures err { OnErr result (self.new.tree ≡ self.old.tree) }
        ensures exact { is_failed result ≡ (is_listed self.old || make_fails self.old.tree path.now) }
        ensures rest { self.new ≡ with_rows self.old self.new.rows self.new.tree }
    {
        if self.is_failing() {
            return Err(GetFail::Failed);
        }
        if !self.has_place(path) {
            return Err(GetFail::Failed);
        }
        match self.put(alloc, path, kind, target) {
            Ok(()) => Ok(()),
            Err(Memory) => Err(GetFail::Memory),
        }
    }

    /// What a listing with attributes answers.
    fn attributed(&self, alloc: Global, path: &Path) -> Result<Vec<AttributedRow>, GetFail>
        ensures ok { IfOk result (λ rows. rows.items ≡ rows_in self.now.rows path.now) }
        ensures within { IfOk result (λ rows. AreWithin rows.items) }
    {
        if self.is_failing() {
            return Err(GetFail::Failed);
        }
        match self.row(path) {
            Some((Kind::Directory, _)) => attributed_rows(alloc, &self.table, path),
            _ => Err(GetFail::Failed),
        }
    }

    /// What setting attributes answers.
    fn dress_row(&mut self, alloc: Global, path: &Path, attr: Attr) -> Result<(), GetFail>
        ensures ok { OnOk result (IsSet (Some self.old.rows) (Some self.new.rows) path.now attr) }
        ensures err { OnErr result (self.new.rows ≡ self.old.rows) }
        ensures tree { self.new.tree ≡ self.old.tree }
        ensures rest { self.new ≡ with_rows self.old self.new.rows self.new.tree }
    {
        if self.is_failing() {
            return Err(GetFail::Failed);
        }
        dress(alloc, &mut self.table, path, attr)
    }

    /// What appending answers.
    fn append_row(&mut self, alloc: Global, path: &Path, bytes: &[u8]) -> Result<(), GetFail>
        ensures ok { OnOk result (IsAppended (Some self.old.tree) (Some self.new.tree) path.now bytes.now) }
        ensures err { OnErr result (self.new.tree ≡ self.old.tree) }
        ensures exact { is_failed result ≡ read_fails self.old path.now }
        ensures rest { self.new ≡ with_rows self.old self.new.rows self.new.tree }
    {
        if self.is_failing() {
            return Err(GetFail::Failed);
        }
        let all = match self.row(path) {
            Some((Kind::File, first)) => longer(alloc, first, bytes),
            _ => return Err(GetFail::Failed),
        };
        match all {
            Ok(bytes) => {
                set_file(&mut self.table, path.names(), bytes);
                Ok(())
            }
            Err(Memory) => Err(GetFail::Memory),
        }
    }
}

impl Folder for MemoryFolder {
    ghost tree = { λ f. Some f.tree };

    ghost faults = { λ f. f.faults };

    fn list(&mut self, alloc: Global, path: &Path) -> Result<RowList, GetFail>
        ensures order { IfOk result RowsRise }
        ensures tree { IsHostTree self.old.tree }
        ensures ok { IfOk result (λ rows. AreRowsOf self.old.tree path.now rows) }
        ensures cause { GetHasCause self.old.faults self.new.faults result }

        ensures exact { is_failed result ≡ list_fails self.old path.now }
        ensures stays { OnlyCounts self.old self.new }
    {
        let result = self.rows(alloc, path);
        self.count(&result);
        result
    }

    fn read(&mut self, path: &Path, from: u64, piece: &mut [u8]) -> Result<usize, Failed>
        ensures bound { IfOk result (λ n. n ≤ length piece.old) }
        ensures far { IfOk result (λ n. 0 < n → from + n ≤ 2 ^ 63) }
        ensures ok { IfOk result (λ n. IsFileAt self.old.tree path.now from n piece.old piece.new) }
        ensures grows { self.old.faults ≤ self.new.faults }
        ensures cause { OnErr result (RoseBy 1 self.old.faults self.new.faults) }
        ensures quiet { OnOk result (self.new.faults ≡ self.old.faults) }

        ensures exact { is_err result ≡ read_fails self.old path.now }
        ensures stays { OnlyCounts self.old self.new }
    {
        let result = self.read_at(path, from, piece);
        self.count_read(&result);
        result
    }

    fn link(&mut self, alloc: Global, path: &Path) -> Result<ByteText, GetFail>
        ensures fits { IfOk result (λ text. IsTrue (is_target text)) }
        ensures ok { IfOk result (λ text. IsLinkAt self.old.tree path.now text) }
        ensures cause { GetHasCause self.old.faults self.new.faults result }

        ensures exact { is_failed result ≡ link_fails self.old path.now }
        ensures stays { OnlyCounts self.old self.new }
    {
        let result = self.target(alloc, path);
        self.count(&result);
        result
    }

    fn make(
        &mut self,
        alloc: Global,
        path: &Path,
        kind: Kind,
        target: &ByteText,
    ) -> Result<(), GetFail>
        requires { HasTarget kind target.now }
        ensures ok { OnOk result (IsMade (Some self.old.tree) (Some self.new.tree) path.now kind target.now) }
        ensures err { OnErr result ((Some self.new.tree ≡ Some self.old.tree) ⊎ IsMade (Some self.old.tree) (Some self.new.tree) path.now kind target.now) }
        ensures cause { GetHasCause self.old.faults self.new.faults result }

        ensures exact { is_failed result ≡ (is_listed self.old || make_fails self.old.tree path.now) }
        ensures rest { OnErr result (self.new.tree ≡ self.old.tree) }
        ensures counts { (self.new.failing ≡ self.old.failing) × (self.new.calls ≡ one_more self.old.calls) }
    {
        let result = self.make_row(alloc, path, kind, target);
        self.count(&result);
        result
    }

    fn append(&mut self, alloc: Global, path: &Path, bytes: &[u8]) -> Result<(), GetFail>
        ensures ok { OnOk result (IsAppended (Some self.old.tree) (Some self.new.tree) path.now bytes.now) }
        ensures err { OnErr result ((Some self.new.tree ≡ Some self.old.tree) ⊎ ((k : ℕ) × IsAppended (Some self.old.tree) (Some self.new.tree) path.now (take k bytes.now))) }
        ensures cause { GetHasCause self.old.faults self.new.faults result }

        ensures exact { is_failed result ≡ read_fails self.old path.now }
        ensures rest { OnErr result (self.new.tree ≡ self.old.tree) }
        ensures counts { (self.new.failing ≡ self.old.failing) × (self.new.calls ≡ one_more self.old.calls) }
    {
        let result = self.append_row(alloc, path, bytes);
        self.count(&result);
        result
    }
}

impl Attributed for MemoryFolder {
    ghost attributes = { λ f. Some f.rows };

    fn list_attributes(
        &mut self,
        alloc: Global,
        path: &Path,
    ) -> Result<Vec<AttributedRow>, GetFail> {
        let result = self.attributed(alloc, path);
        self.count(&result);
        result
    }

    fn set_attributes(&mut self, alloc: Global, path: &Path, attr: Attr) -> Result<(), GetFail> {
        let result = self.dress_row(alloc, path, attr);
        self.count(&result);
        result
    }
}
