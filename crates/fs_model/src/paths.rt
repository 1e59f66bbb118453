// The order of paths, and their prefixes.
ghost use Rattle.std.specs.Prelude.{◌≡◌, ◌≤◌, length, is_some, IsTrue};
ghost use Rattle.fs_model.specs.Tree.{upward, path_cmp, same_path};
ghost use Rattle.fs_model.specs.Move as model;

use crate::Name;
use std::cmp::Ordering;

/// The order of paths: by the last name first.
pub fn cmp_names(a: &[Name], b: &[Name]) -> Ordering
    ensures { result ≡ path_cmp (upward a.now) (upward b.now) }
{
    if a.is_empty() {
        return if b.is_empty() {
            Ordering::Equal
        } else {
            Ordering::Less
        };
    }
    if b.is_empty() {
        return Ordering::Greater;
    }
    let i = a.len() - 1;
    let j = b.len() - 1;
    match a[i].as_slice().cmp(&b[j].as_slice()) {
        Ordering::Equal => cmp_names(&a[..i], &b[..j]),
        Ordering::Less => Ordering::Less,
        Ordering::Greater => Ordering::Greater,
    }
}

/// The names are those of one path.
pub fn same_names(a: &[Name], b: &[Name]) -> bool
    ensures { result ≡ same_path (upward a.now) (upward b.now) }
{
    cmp_names(a, b).is_eq()
}

/// The names begin with these.
pub fn has_prefix(names: &[Name], prefix: &[Name]) -> bool
    ensures value { result ≡ is_some (model.strip (upward prefix.now) (upward names.now)) }
    ensures within { IsTrue result → length prefix.now ≤ length names.now }
{
    if names.len() < prefix.len() {
        return false;
    }
    same_names(&names[..prefix.len()], prefix)
}

/// The first path is a proper prefix of the second.
pub fn is_above(above: &[Name], names: &[Name]) -> bool
    ensures { result ≡ model.is_above (upward above.now) (upward names.now) }
{
    if names.is_empty() {
        return false;
    }
    has_prefix(&names[..names.len() - 1], above)
}
