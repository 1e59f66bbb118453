// Where a name stands in the body of a directory.
ghost use Rattle.std.specs.Prelude.{◌≡◌, ◌≤◌, length, drop, None, IfSome, IsSomeAnd, MatchOption};
ghost use Rattle.fs_model.specs.Tree.{name_cmp};
ghost use Rattle.dir_entries.specs.Layout.{Listing, IsBody};
ghost use Rattle.dir_entries.specs.Places.{IsHeld, IsPlace, target_of};
ghost use Rattle.dir_entries.specs.Reading.{entry_at};

use crate::decode::{first_entry, first_name};
use block_id::BlockId;
use fs_model::{Attr, MAX_MODE, Name};
use std::cmp::Ordering;

/// Where a name stands in a body, or would stand.
#[derive(Clone, Copy)]
pub struct Located {
    /// The place of its entry.
    pub front: usize,
    /// What stands under the name.
    pub found: Option<(Attr, BlockId)>,
    /// The place of what follows.
    pub back: usize,
}

/// The place of a name. None only where the bytes aren't the body of a directory; it doesn't read past the name.
pub fn locate(body: &[u8], name: &Name) -> Option<Located>
    ensures within { IfSome result (λ p. (p.front ≤ p.back) × (p.back ≤ length body.now)) }
    ensures mode { IfSome result (λ p. IfSome p.found (λ found. found.0.mode ≤ MAX_MODE)) }
    ensures place { (listing : Listing) → IsBody body.now listing
        → IsSomeAnd result (λ p. IsPlace name.now listing p.front (target_of p.found) (drop p.back body.now)) }
{
    let mut rest = body;
    while !rest.is_empty() {
        let Some((next, after)) = first_name(rest) else {
            return None;
        };
        match compared(name, next) {
            Ordering::Less => return Some(vacant(body.len() - rest.len())),
            Ordering::Equal => return held(body, rest),
            Ordering::Greater => {}
        }
        rest = after;
    }
    Some(vacant(body.len()))
}

/// The place of a name that has no entry.
fn vacant(place: usize) -> Located
    ensures front { result.front ≡ place }
    ensures found { result.found ≡ None }
    ensures back { result.back ≡ place }
{
    Located {
        front: place,
        found: None,
        back: place,
    }
}

/// The entry in front of the rest of a body, or None where none stands there.
fn held(body: &[u8], rest: &[u8]) -> Option<Located>
    requires { length rest.now ≤ length body.now }
    ensures entry { MatchOption result (entry_at rest.now ≡ None) (λ p. IsHeld body.now rest.now p.front (target_of p.found) p.back) }
    ensures within { IfSome result (λ p. (p.front ≤ p.back) × (p.back ≤ length body.now)) }
    ensures mode { IfSome result (λ p. IfSome p.found (λ found. found.0.mode ≤ MAX_MODE)) }
{
    let Some(entry) = first_entry(rest) else {
        return None;
    };
    Some(Located {
        front: body.len() - rest.len(),
        found: Some((entry.attr, entry.blob)),
        back: body.len() - entry.rest.len(),
    })
}

/// By their bytes.
fn compared(first: &Name, second: &[u8]) -> Ordering
    ensures { result ≡ name_cmp first.now second.now }
{
    first.as_slice().cmp(&second)
}
