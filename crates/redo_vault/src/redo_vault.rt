// The unwritten list over a directory.
ghost use Rattle.std.specs.Prelude.{◌≡◌, ◌⊎◌, ◌≤◌, ◌<◌, ◌+◌, ◌-◌, ◌^◌, min, [], length, unwrap_or, vec_len, vec_capacity, drop, true, false, IfOk, IfSome, IfNone, OnOk, OnErr, IsErrOf};
ghost use Rattle.std.specs.Option.{option_map};
ghost use Rattle.std.specs.declared.option.Option.{Option};
ghost use Rattle.std.specs.declared.option.Option.TheVariants.{None, Some};
ghost use Rattle.outside.specs.Causes.{GetHasCause};
ghost use Rattle.outside.specs.Trace.{adds};
ghost use Rattle.outside.specs.Changes.{FileChanges, IsIncreasing, change_at, set_change, set_changes};
ghost use Rattle.outside.specs.View.{at_of, bytes_of, change_of, list_of, pending_of};
ghost use Rattle.redo_vault.specs.Redo.{AreSums, Gave, buffered_len, len_with, sum_with, weight_len};
ghost use Rattle.outside.specs.Writes.{call_for, after_writes, StopsAt};

use outside::{Change, FileName, GetFail, Memory, Pending, Vault};
use std::alloc::Global;
use std::marker::Model;
use std::mem;

/// More changes than this that stand in order are set by one pass over the list.
const FEW: usize = 8;

/// The greatest sum of bytes that is told.
const MOST: usize = usize::MAX;

/// How many bytes each removal weighs.
const REMOVAL: usize = 64;

/// A directory, its unwritten list by increasing names, how many bytes the list puts, and its weight: those bytes and
/// so many for each removal.
#[derive(Drop)]
pub struct RedoVault<V> {
    vault: V,
    list: Vec<Pending>,
    buffered: usize,
    weight: usize,
}

impl<V> Model for RedoVault<V> {
    ghost use Rattle.std.specs.Prelude.{◌≡◌};
    ghost use Rattle.redo_vault.specs.Redo.{Redo, sum_with};
    ghost use Rattle.outside.specs.Changes.{IsIncreasing};
    ghost use Rattle.outside.specs.View.{list_of};

    ghost Value = { Redo V };

    ghost view = { λ r. record { vault = r.vault; list = list_of r.list.items } };

    ghost invariant = { λ r. IsIncreasing (list_of r.list.items)
        × (r.buffered ≡ sum_with 0 (list_of r.list.items)) × (r.weight ≡ sum_with 64 (list_of r.list.items)) };
}

/// Makes the one call that writes a change.
fn write<V: Vault>(alloc: Global, vault: &mut V, pending: &Pending) -> Result<(), GetFail>
    ensures ok { OnOk result (V.trace vault.new ≡ adds (V.trace vault.old) (call_for (pending_of pending.now) true)) }
    ensures err { OnErr result ((V.trace vault.new ≡ V.trace vault.old)
        ⊎ (V.trace vault.new ≡ adds (V.trace vault.old) (call_for (pending_of pending.now) false))) }
    ensures cause { GetHasCause (V.faults vault.old) (V.faults vault.new) result }
{
    match &pending.change {
        Change::Bytes(bytes) => vault.put(alloc, &pending.name, bytes),
        Change::Removal => vault.remove(alloc, &pending.name),
    }
}

/// Writes the changes in order until a call fails, and says how many were written.
fn write_all<V: Vault>(
    alloc: Global,
    vault: &mut V,
    list: &[Pending],
) -> (usize, Result<(), GetFail>)
    ensures within { result.0 ≤ length list.now }
    ensures all { OnOk result.1 (result.0 ≡ length list.now) }
    ensures ok { OnOk result.1 (V.trace vault.new ≡ after_writes (list_of list.now) (V.trace vault.old)) }
    ensures err { OnErr result.1 (StopsAt (list_of list.now) (V.trace vault.old) (V.trace vault.new) (drop result.0 (list_of list.now))) }
    ensures cause { GetHasCause (V.faults vault.old) (V.faults vault.new) result.1 }
    ensures idle { length list.now ≡ 0 → vault.new ≡ vault.old }
{
    for (i, pending) in list.iter().enumerate() {
        match write(alloc, vault, pending) {
            Ok(()) => {}
            Err(fail) => return (i, Err(fail)),
        }
    }
    (list.len(), Ok(()))
}

/// Drops the first n changes.
fn drop_front(list: &mut Vec<Pending>, n: usize)
    requires { n ≤ vec_len list.old }
    ensures { list_of list.new.items ≡ drop n (list_of list.old.items) }
{
    let left = list.len() - n;
    list.rotate_left(n);
    list.truncate(left);
}

/// How many bytes a change counts, where each removal counts so many.
fn len_of(change: &Change, removal: usize) -> usize
    ensures { result ≡ len_with removal (change_of change.now) }
{
    match change {
        Change::Bytes(bytes) => bytes.len(),
        Change::Removal => removal,
    }
}

/// How many bytes the changes count, where each removal counts so many.
fn sum_of_lens(list: &[Pending], removal: usize) -> usize
    ensures { result ≡ sum_with removal (list_of list.now) }
{
    let mut len: usize = 0;
    for pending in list {
        len = len.saturating_add(len_of(&pending.change, removal));
    }
    len
}

/// How many bytes the list counts for this name, where each removal counts so many.
fn len_at(list: &[Pending], name: &FileName, removal: usize) -> usize
    requires { IsIncreasing (list_of list.now) }
    ensures { result ≡ unwrap_or (option_map (len_with removal) (change_at (at_of name.now) (list_of list.now))) 0 }
{
    match pending_list::lookup_in_order(list, name) {
        Some(change) => len_of(change, removal),
        None => 0,
    }
}

/// How many bytes the list counts now that a change took the place of another, where it counted `sum` before.
fn sum_after(list: &[Pending], sum: usize, old: usize, new: usize, removal: usize) -> usize
    requires counted { (sum ≡ 2 ^ 64 - 1 → ⊥) → old ≤ sum }
    requires changed { (sum ≡ 2 ^ 64 - 1 → ⊥) → min ((sum - old) + new) (2 ^ 64 - 1) ≡ sum_with removal (list_of list.now) }
    ensures { result ≡ sum_with removal (list_of list.now) }
{
    if sum == MOST {
        sum_of_lens(list, removal)
    } else {
        (sum - old).saturating_add(new)
    }
}

/// Sets a change in a list that has room for it. The sums are the bytes that the list puts and its weight.
fn set_one(list: &mut Vec<Pending>, sums: (usize, usize), change: Pending) -> (usize, usize)
    requires increasing { IsIncreasing (list_of list.old.items) }
    requires room { vec_len list.old < vec_capacity list.old }
    requires sums { AreSums sums (list_of list.old.items) }
    ensures items { list_of list.new.items ≡ set_change (at_of change.name) (change_of change.change) (list_of list.old.items) }
    ensures sums { AreSums result (list_of list.new.items) }
    ensures len { vec_len list.new ≤ vec_len list.old + 1 }
    ensures capacity { vec_capacity list.old ≤ vec_capacity list.new }
{
    let old_bytes = len_at(list, &change.name, 0);
    let old_count = len_at(list, &change.name, REMOVAL);
    let new_bytes = len_of(&change.change, 0);
    let new_count = len_of(&change.change, REMOVAL);
    pending_list::set_in_order(list, change);
    let buffered = sum_after(list, sums.0, old_bytes, new_bytes, 0);
    let weight = sum_after(list, sums.1, old_count, new_count, REMOVAL);
    (buffered, weight)
}

/// Sets the changes, one after another, in a list that has room for them. The sums are the bytes that the list puts and its weight.
fn set_all(list: &mut Vec<Pending>, sums: (usize, usize), changes: Vec<Pending>) -> (usize, usize)
    requires increasing { IsIncreasing (list_of list.old.items) }
    requires room { vec_len list.old + vec_len changes ≤ vec_capacity list.old }
    requires sums { AreSums sums (list_of list.old.items) }
    ensures items { list_of list.new.items ≡ set_changes (list_of changes.items) (list_of list.old.items) }
    ensures sums { AreSums result (list_of list.new.items) }
{
    let mut now = sums;
    for change in changes {
        now = set_one(list, now, change);
    }
    now
}

/// Sets each of the changes in its place, all or none. The sums are the bytes that the list puts and its weight.
fn put_changes(
    list: &mut Vec<Pending>,
    sums: (usize, usize),
    changes: Vec<Pending>,
) -> Result<(usize, usize), Memory>
    requires increasing { IsIncreasing (list_of list.old.items) }
    requires sums { AreSums sums (list_of list.old.items) }
    ensures ok { OnOk result (list_of list.new.items ≡ set_changes (list_of changes.items) (list_of list.old.items)) }
    ensures err { OnErr result (list_of list.new.items ≡ list_of list.old.items) }
    ensures sums { IfOk result (λ now. AreSums now (list_of list.new.items)) }
{
    if changes.len() > FEW && pending_list::is_in_order(&changes) {
        pending_list::merge(list, changes)?;
        return Ok((sum_of_lens(list, 0), sum_of_lens(list, REMOVAL)));
    }
    list.reserve(changes.len())?;
    Ok(set_all(list, sums, changes))
}

impl<V: Vault> RedoVault<V> {
    /// A directory and a list of changes that stand in order of their names.
    pub fn new(vault: V, list: Vec<Pending>) -> RedoVault<V>
        requires { IsIncreasing (list_of list.items) }
        ensures { result ≡ record { vault = vault; list = list_of list.items } }
    {
        let buffered = sum_of_lens(&list, 0);
        let weight = sum_of_lens(&list, REMOVAL);
        RedoVault {
            vault,
            list,
            buffered,
            weight,
        }
    }

    /// The directory, without the unwritten list.
    pub fn into_vault(self) -> V
        ensures { result ≡ self.vault }
    {
        let RedoVault { vault, list, .. } = self;
        drop(list);
        vault
    }

    /// The unwritten list.
    pub fn entries(&self) -> &[Pending]
        ensures entries { list_of result.now ≡ self.now.list }
        ensures increasing { IsIncreasing self.now.list }
    {
        &self.list
    }

    /// What the list says of a file.
    pub fn change_of(&self, name: &FileName) -> Option<&Change>
        ensures some { IfSome result (λ change. change_at (at_of name.now) self.now.list ≡ Some (change_of change.now)) }
        ensures none { IfNone result (change_at (at_of name.now) self.now.list ≡ None) }
    {
        pending_list::lookup_in_order(&self.list, name)
    }

    /// The file's bytes, at most `max` of them, or None where it isn't there: as the list says, else by one call.
    pub fn get(
        &mut self,
        alloc: Global,
        name: &FileName,
        max: usize,
    ) -> Result<Option<Vec<u8>>, GetFail>
        ensures bound { IfOk result (λ answer. IfSome answer (λ bytes. length bytes.items ≤ max)) }
        ensures gave { IfOk result (λ answer. Gave (change_at (at_of name.now) self.old.list)
            (V.trace self.old.vault) (V.trace self.new.vault) (at_of name.now) max (bytes_of answer)) }
        ensures err { OnErr result (V.trace self.new.vault ≡ V.trace self.old.vault) }
        ensures without_a_call { IfSome (change_at (at_of name.now) self.old.list) (λ _. self.new ≡ self.old) }
        ensures failed_by_a_call { IsErrOf result GetFail.Failed → change_at (at_of name.now) self.old.list ≡ None }
        ensures list { self.new.list ≡ self.old.list }
        ensures cause { GetHasCause (V.faults self.old.vault) (V.faults self.new.vault) result }
    {
        match pending_list::lookup_in_order(&self.list, name) {
            Some(change) => Ok(pending_list::cut_change(alloc, change, max)?),
            None => self.vault.get(alloc, name, max),
        }
    }

    /// Sets each of these changes in its place, all or none.
    pub fn put_all(&mut self, changes: Vec<Pending>) -> Result<(), Memory>
        ensures ok { OnOk result (self.new.list ≡ set_changes (list_of changes.items) self.old.list) }
        ensures err { OnErr result (self.new.list ≡ self.old.list) }
        ensures vault { self.new.vault ≡ self.old.vault }
    {
        let sums = put_changes(&mut self.list, (self.buffered, self.weight), changes)?;
        self.buffered = sums.0;
        self.weight = sums.1;
        Ok(())
    }

    /// Has this list of changes, which stand in order of their names, in place of the one that waits, and gives that one back.
    pub fn replace_list(&mut self, list: Vec<Pending>) -> Vec<Pending>
        requires { IsIncreasing (list_of list.items) }
        ensures old { list_of result.items ≡ self.old.list }
        ensures new { self.new ≡ record { vault = self.old.vault; list = list_of list.items } }
        ensures increasing { IsIncreasing self.old.list }
    {
        self.buffered = sum_of_lens(&list, 0);
        self.weight = sum_of_lens(&list, REMOVAL);
        mem::replace(&mut self.list, list)
    }

    /// How many bytes are to be put, or the greatest number where they are more.
    pub fn buffered(&self) -> usize
        ensures { result ≡ buffered_len self.now.list }
    {
        self.buffered
    }

    /// What the list weighs, or the greatest number where it is more: the bytes that are to be put, and 64 for each
    /// removal.
    pub fn weight(&self) -> usize
        ensures { result ≡ weight_len self.now.list }
    {
        self.weight
    }

    /// Writes the unwritten list out, in order. Each change leaves the list as its call answers Ok; the
    /// rest stays at the first error, which is answered.
    pub fn write_out(&mut self, alloc: Global) -> Result<(), GetFail>
        ensures ok { OnOk result (V.trace self.new.vault ≡ after_writes self.old.list (V.trace self.old.vault)) }
        ensures all_left { OnOk result (self.new.list ≡ []) }
        ensures err { OnErr result (StopsAt self.old.list (V.trace self.old.vault) (V.trace self.new.vault) self.new.list) }
        ensures idle { length self.old.list ≡ 0 → self.new.vault ≡ self.old.vault }
        ensures cause { GetHasCause (V.faults self.old.vault) (V.faults self.new.vault) result }
    {
        let (written, outcome) = write_all(alloc, &mut self.vault, &self.list);
        drop_front(&mut self.list, written);
        self.buffered = sum_of_lens(&self.list, 0);
        self.weight = sum_of_lens(&self.list, REMOVAL);
        outcome
    }
}
