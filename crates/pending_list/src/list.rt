// Unwritten lists.
ghost use Rattle.std.specs.Prelude.{◌≡◌, ◌+◌, ◌<◌, ◌≤◌, List, ℕ, ◌∷◌, ◌++◌, length, take, drop, IfOk, IfErr, IfSome, IfNone, vec_len, vec_capacity};
ghost use Rattle.std.specs.declared.option.Option.{Option};
ghost use Rattle.std.specs.declared.option.Option.TheVariants.{None, Some};
ghost use Rattle.outside.specs.Changes.{change_at, set_change, cut as cut_at};
ghost use Rattle.outside.specs.Names.{same_at, at_cmp};
ghost use Rattle.outside.specs.View.{at_of, bytes_of, change_of, list_of};

use outside::{Change, FileName, Pending};
use std::alloc::{AllocError, Global};
use std::cmp::Ordering;

/// Whether two files have the same name.
pub fn is_same(a: &FileName, b: &FileName) -> bool
    ensures { result ≡ same_at (at_of a.now) (at_of b.now) }
{
    *a == *b
}

pub(crate) fn order(a: &FileName, b: &FileName) -> Ordering
    ensures { result ≡ at_cmp (at_of a.now) (at_of b.now) }
{
    a.cmp(b)
}

/// The first change of this name.
pub fn lookup<'a>(list: &'a [Pending], name: &FileName) -> Option<&'a Change>
    ensures some { IfSome result (λ change. change_at (at_of name.now) (list_of list.now) ≡ Some (change_of change.now)) }
    ensures none { IfNone result (change_at (at_of name.now) (list_of list.now) ≡ None) }
{
    for pending in list {
        if is_same(name, &pending.name) {
            return Some(&pending.change);
        }
    }
    None
}

/// Where a name stands, or else where it would stand.
fn place(list: &[Pending], name: &FileName) -> Result<usize, usize>
    ensures within { IfOk result (λ i. i < length list.now) }
    ensures found { IfOk result (λ i. (change : Option (List ℕ)) → set_change (at_of name.now) change (list_of list.now)
        ≡ take i (list_of list.now) ++ (at_of name.now, change) ∷ drop (i + 1) (list_of list.now)) }
    ensures bound { IfErr result (λ i. i ≤ length list.now) }
    ensures absent { IfErr result (λ i. (change : Option (List ℕ)) → set_change (at_of name.now) change (list_of list.now)
        ≡ take i (list_of list.now) ++ (at_of name.now, change) ∷ drop i (list_of list.now)) }
{
    for (i, pending) in list.iter().enumerate() {
        match order(name, &pending.name) {
            Ordering::Less => return Err(i),
            Ordering::Equal => return Ok(i),
            Ordering::Greater => {}
        }
    }
    Err(list.len())
}

/// Sets a change in its place in the order of names, which takes no memory where the list has room.
pub fn set(list: &mut Vec<Pending>, pending: Pending)
    requires { vec_len list.old < vec_capacity list.old }
    ensures items { list_of list.new.items ≡ set_change (at_of pending.name) (change_of pending.change) (list_of list.old.items) }
    ensures len { vec_len list.new ≤ vec_len list.old + 1 }
    ensures capacity { vec_capacity list.old ≤ vec_capacity list.new }
{
    match place(list, &pending.name) {
        Ok(i) => list[i] = pending,
        Err(i) => match list.insert(i, pending) {
            Ok(()) => {}
            Err(_) => unreachable!(),
        },
    }
}

/// A copy of at most `max` of the bytes.
pub fn cut(
    alloc: Global,
    bytes: &Option<Vec<u8>>,
    max: usize,
) -> Result<Option<Vec<u8>>, AllocError>
    ensures { IfOk result (λ answer. bytes_of answer ≡ cut_at max (bytes_of bytes.now)) }
{
    match bytes {
        Some(bytes) => {
            let end = bytes.len().min(max);
            Ok(Some(bytes[..end].to_vec(alloc)?))
        }
        None => Ok(None),
    }
}

/// A copy of at most `max` of the bytes that a change gives a file.
pub fn cut_change(alloc: Global, change: &Change, max: usize) -> Result<Option<Vec<u8>>, AllocError>
    ensures { IfOk result (λ answer. bytes_of answer ≡ cut_at max (change_of change.now)) }
{
    match change {
        Change::Bytes(bytes) => {
            let end = bytes.len().min(max);
            Ok(Some(bytes[..end].to_vec(alloc)?))
        }
        Change::Removal => Ok(None),
    }
}
