// Many changes set by one pass over them and the list.
ghost use Rattle.std.specs.Prelude.{◌≡◌, ◌+◌, ◌<◌, ◌≤◌, List, ℕ, ◌∷◌, ◌++◌, vec_len, vec_capacity, slice_get, OnOk, OnErr};
ghost use Rattle.std.specs.Option.{option_map};
ghost use Rattle.std.specs.VecDeque.{deque_len};
ghost use Rattle.std.specs.declared.option.Option.{Option};
ghost use Rattle.outside.specs.Changes.{FileChanges, IsIncreasing, set_changes};
ghost use Rattle.outside.specs.Names.{at_cmp};
ghost use Rattle.outside.specs.View.{at_of, list_of};

use crate::list::order;
use outside::{FileName, Pending};
use std::alloc::AllocError;
use std::cmp::Ordering;
use std::collections::VecDeque;
use std::mem;

/// How a name stands to the first of a list, if there is one.
fn order_at_front(list: &VecDeque<Pending>, name: &FileName) -> Option<Ordering>
    ensures { result ≡ option_map (λ entry. at_cmp (at_of name.now) entry.0) (slice_get (list_of list.now.items) 0) }
{
    match list.front() {
        Some(first) => Some(order(name, &first.name)),
        None => None,
    }
}

/// Takes the first out.
fn take_first(list: &mut VecDeque<Pending>) -> Pending
    requires { 0 < deque_len list.old }
    ensures items { list.old.items ≡ result ∷ list.new.items }
    ensures len { deque_len list.new + 1 ≡ deque_len list.old }
{
    match list.pop_front() {
        Some(first) => first,
        None => unreachable!(),
    }
}

/// Moves the entries below this name behind the merged ones, and lets go of the one of this name.
fn pass_lower(merged: &mut Vec<Pending>, rest: &mut VecDeque<Pending>, name: &FileName)
    requires { vec_len merged.old + deque_len rest.old ≤ vec_capacity merged.old }
    ensures passed { (change : Option (List ℕ)) → (later : FileChanges) → IsIncreasing ((at_of name.now, change) ∷ later)
        → list_of merged.new.items ++ (at_of name.now, change) ∷ set_changes later (list_of rest.new.items)
        ≡ list_of merged.old.items ++ set_changes ((at_of name.now, change) ∷ later) (list_of rest.old.items) }
    ensures len { vec_len merged.new + deque_len rest.new ≤ vec_len merged.old + deque_len rest.old }
    ensures capacity { vec_capacity merged.new ≡ vec_capacity merged.old }
{
    while let Some(order) = order_at_front(rest, name) {
        match order {
            Ordering::Less => return,
            Ordering::Equal => {
                let _ = take_first(rest);
                return;
            }
            Ordering::Greater => merged.push_reserved(take_first(rest)),
        }
    }
}

/// Sets the changes in what is left of a list, behind what is merged.
fn merge_all(merged: &mut Vec<Pending>, rest: &mut VecDeque<Pending>, changes: Vec<Pending>)
    requires increasing { IsIncreasing (list_of changes.items) }
    requires room { vec_len merged.old + deque_len rest.old + vec_len changes ≤ vec_capacity merged.old }
    ensures merged { list_of merged.new.items ++ list_of rest.new.items
        ≡ list_of merged.old.items ++ set_changes (list_of changes.items) (list_of rest.old.items) }
    ensures len { vec_len merged.new + deque_len rest.new ≤ vec_len merged.old + deque_len rest.old + vec_len changes }
    ensures capacity { vec_capacity merged.new ≡ vec_capacity merged.old }
{
    for change in changes {
        pass_lower(merged, rest, &change.name);
        merged.push_reserved(change);
    }
}

/// The list with the changes, in a list that has room for both.
fn merged_into(merged: Vec<Pending>, list: Vec<Pending>, changes: Vec<Pending>) -> Vec<Pending>
    requires increasing { IsIncreasing (list_of changes.items) }
    requires empty { vec_len merged ≡ 0 }
    requires room { vec_len list + vec_len changes ≤ vec_capacity merged }
    ensures { list_of result.items ≡ set_changes (list_of changes.items) (list_of list.items) }
{
    let mut merged = merged;
    let mut rest = VecDeque::from_vec(list);
    merge_all(&mut merged, &mut rest, changes);
    let mut last = rest.into_vec();
    match merged.append(&mut last) {
        Ok(()) => merged,
        Err(_) => unreachable!(),
    }
}

/// Sets changes that stand in order in their places, by one pass over both lists.
pub fn merge(list: &mut Vec<Pending>, changes: Vec<Pending>) -> Result<(), AllocError>
    requires { IsIncreasing (list_of changes.items) }
    ensures ok { OnOk result (list_of list.new.items ≡ set_changes (list_of changes.items) (list_of list.old.items)) }
    ensures err { OnErr result (list.new ≡ list.old) }
{
    let alloc = *list.allocator();
    let merged = Vec::with_capacity(alloc, list.len() + changes.len())?;
    let old = mem::replace(list, Vec::new(alloc));
    *list = merged_into(merged, old, changes);
    Ok(())
}
