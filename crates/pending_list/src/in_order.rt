// Lists whose names rise: where a name stands is found by halves.
ghost use Rattle.std.specs.Prelude.{◌≡◌, ◌+◌, ◌<◌, ◌≤◌, List, ℕ, ◌∷◌, ◌++◌, length, take, drop, IfOk, IfErr, IfSome, IfNone, vec_len, vec_capacity, slice_index_or};
ghost use Rattle.std.specs.FinMap.{is_sorted};
ghost use Rattle.std.specs.declared.option.Option.{Option};
ghost use Rattle.std.specs.declared.option.Option.TheVariants.{None, Some};
ghost use Rattle.outside.specs.Changes.{IsIncreasing, change_at, set_change};
ghost use Rattle.outside.specs.Names.{at_cmp};
ghost use Rattle.outside.specs.View.{at_of, change_of, list_of};
ghost use Rattle.outside.specs.declared.change.Pending.{Pending};

use crate::list::order;
use outside::{Change, FileName, Pending};
use std::cmp::Ordering;

/// Whether each name stands above the one before.
pub fn is_in_order(list: &[Pending]) -> bool
    ensures { result ≡ is_sorted at_cmp (list_of list.now) }
{
    for i in 1..list.len() {
        if !order(&list[i - 1].name, &list[i].name).is_lt() {
            return false;
        }
    }
    true
}

/// Where a name stands, or else where it would stand.
fn place(list: &[Pending], name: &FileName) -> Result<usize, usize>
    requires { IsIncreasing (list_of list.now) }
    ensures within { IfOk result (λ i. i < length list.now) }
    ensures found { IfOk result (λ i. (change : Option (List ℕ)) → set_change (at_of name.now) change (list_of list.now)
        ≡ take i (list_of list.now) ++ (at_of name.now, change) ∷ drop (i + 1) (list_of list.now)) }
    ensures there { IfOk result (λ i. (other : Pending) → change_at (at_of name.now) (list_of list.now)
        ≡ Some (change_of (slice_index_or list.now i other).change)) }
    ensures bound { IfErr result (λ i. i ≤ length list.now) }
    ensures absent { IfErr result (λ i. (change : Option (List ℕ)) → set_change (at_of name.now) change (list_of list.now)
        ≡ take i (list_of list.now) ++ (at_of name.now, change) ∷ drop i (list_of list.now)) }
    ensures not_there { IfErr result (λ i. change_at (at_of name.now) (list_of list.now) ≡ None) }
{
    let mut from = 0;
    let mut to = list.len();
    while from < to {
        let middle = from + (to - from) / 2;
        match order(name, &list[middle].name) {
            Ordering::Less => to = middle,
            Ordering::Equal => return Ok(middle),
            Ordering::Greater => from = middle + 1,
        }
    }
    Err(from)
}

/// The change of this name.
pub fn lookup_in_order<'a>(list: &'a [Pending], name: &FileName) -> Option<&'a Change>
    requires { IsIncreasing (list_of list.now) }
    ensures some { IfSome result (λ change. change_at (at_of name.now) (list_of list.now) ≡ Some (change_of change.now)) }
    ensures none { IfNone result (change_at (at_of name.now) (list_of list.now) ≡ None) }
{
    match place(list, name) {
        Ok(i) => Some(&list[i].change),
        Err(_) => None,
    }
}

/// Sets a change in its place in the order of names, which takes no memory where the list has room.
pub fn set_in_order(list: &mut Vec<Pending>, pending: Pending)
    requires increasing { IsIncreasing (list_of list.old.items) }
    requires room { vec_len list.old < vec_capacity list.old }
    ensures items { list_of list.new.items ≡ set_change (at_of pending.name) (change_of pending.change) (list_of list.old.items) }
    ensures len { vec_len list.new ≤ vec_len list.old + 1 }
    ensures capacity { vec_capacity list.old ≤ vec_capacity list.new }
{
    match place(list, &pending.name) {
        Ok(i) => list[i] = pending,
        Err(i) => match list.insert(i, pending) {
            Ok(()) => {}
            Err(_) => unreachable!(),
        },
    }
}
