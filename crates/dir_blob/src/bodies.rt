// Entries in a directory's body that was read.
ghost use Rattle.std.specs.Prelude.{◌≡◌, ◌≤◌, ◌+◌, IfOk, IfSome, IsSomeAnd, drop, is_some, length, true};
ghost use Rattle.std.specs.FinMap.{find as found_in};
ghost use Rattle.std.specs.declared.option.Option.TheVariants.{Some};
ghost use Rattle.fs_model.specs.Tree.{name_cmp};
ghost use Rattle.dir_entries.specs.Layout.{EntryTarget, Listing, IsBody, body_of};
ghost use Rattle.dir_entries.specs.Places.{IsPlace, without};

use crate::reads::MAX_BODY;
use block_id::Memory;
use dir_entries::{Located, locate};
use fs_blobs::HEADER_LEN;
use fs_blobs::blob_api::MAX_BLOB;
use fs_model::Name;
use std::alloc::Global;

/// The place of an entry that a body has, which fits a blob.
pub(crate) fn held_at(body: &[u8], name: &Name) -> Option<Located>
    ensures within { IfSome result (λ p. (p.front ≤ p.back) × (p.back ≤ length body.now)) }
    ensures short { IfSome result (λ _. HEADER_LEN + length body.now ≤ MAX_BLOB) }
    ensures present { (listing : Listing) → IsBody body.now listing → IfSome result (λ _. is_some (found_in name_cmp name.now listing) ≡ true) }
    ensures place { (listing : Listing) (target : EntryTarget) → IsBody body.now listing → found_in name_cmp name.now listing ≡ Some target → HEADER_LEN + length body.now ≤ MAX_BLOB
        → IsSomeAnd result (λ p. IsPlace name.now listing p.front (Some target) (drop p.back body.now)) }
{
    let Some(place) = locate(body, name) else {
        return None;
    };
    if place.found.is_none() || body.len() as u64 > MAX_BODY {
        return None;
    }
    Some(place)
}

/// The body of a directory without the entry of a name that it has.
pub fn body_without(alloc: Global, body: &[u8], name: &Name) -> Result<Vec<u8>, Memory>
    ensures { (listing : Listing) (target : EntryTarget) → IsBody body.now listing → found_in name_cmp name.now listing ≡ Some target
        → IfOk result (λ left. left.items ≡ body_of (without name.now listing)) }
{
    let mut left = Vec::new(alloc);
    if let Some(place) = locate(body, name) {
        left.extend_from_slice(&body[..place.front])?;
        left.extend_from_slice(&body[place.back..])?;
    }
    Ok(left)
}
