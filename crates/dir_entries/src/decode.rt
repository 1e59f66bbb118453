// Reading the entries of a directory from its body.
ghost use Rattle.std.specs.Prelude.{◌≡◌, ◌==◌, ◌<◌, List, ℕ, length, IfOk, IfSome, Some};
ghost use Rattle.std.specs.Option.{option_map};
ghost use Rattle.std.specs.List.{position};
ghost use Rattle.fs_model.specs.Names.{IsName};
ghost use Rattle.dir_entries.specs.Layout.{Listing, IsBody, named, entry_of, listing_of};
ghost use Rattle.dir_entries.specs.Reading.{kind_of, moment_at, access_at, owner_at, times_at, attr_at, text_at, entry_at, name_at, rises};

use crate::Entry;
use block_id::{BlockId, Memory};
use byte_fields::{take_bytes, take_id, take_u32, take_u64};
use fs_model::{Attr, Kind, MAX_MODE, Moment, Name, has_name_form, kind_from};
use std::alloc::Global;

/// The bytes of an entry's attributes.
const ATTR_LEN: usize = 49;

/// The entries of a directory's body, or None where it isn't such a body. It takes time linear in the body.
pub fn decode_entries(alloc: Global, body: &[u8]) -> Result<Option<Vec<Entry>>, Memory>
    // What is read is written so.
    ensures found { IfOk result (λ answer. IfSome answer (λ entries. IsBody body.now (listing_of entries.items))) }
    // What is written so is read. So None comes only off the grammar, and no body has a second reading.
    ensures only { IfOk result (λ answer. (listing : Listing) → IsBody body.now listing
        → option_map (λ entries. listing_of entries.items) answer ≡ Some listing) }
{
    let mut entries = Vec::new(alloc);
    let mut rest = body;
    while !rest.is_empty() {
        let (entry, after) = match entry_from(alloc, rest) {
            Ok(Some(next)) => next,
            Ok(None) => return Ok(None),
            Err(memory) => return Err(memory),
        };
        if !comes_after(&entries, &entry.name) {
            return Ok(None);
        }
        entries.push(entry)?;
        rest = after;
    }
    Ok(Some(entries))
}

/// A body has one list of entries at most.
pub fn one_reading()
    ensures { (body : List ℕ) (one other : Listing) → IsBody body one → IsBody body other → one ≡ other }
{}

/// Whether a name is above that of the last entry.
fn comes_after(entries: &[Entry], name: &Name) -> bool
    ensures { result ≡ rises (listing_of entries.now) name.now }
{
    match entries.last() {
        None => true,
        Some(last) => last.name.as_slice().cmp(&name.as_slice()).is_lt(),
    }
}

/// The first entry as it stands in the bytes, and what follows it.
#[derive(Clone, Copy)]
pub(crate) struct Front<'a> {
    pub name: &'a [u8],
    pub attr: Attr,
    pub blob: BlockId,
    pub rest: &'a [u8],
}

/// The first entry, and what follows it.
fn entry_from(alloc: Global, bytes: &[u8]) -> Result<Option<(Entry, &[u8])>, Memory>
    ensures { IfOk result (λ answer. option_map (λ x. (entry_of x.0, x.1.now)) answer ≡ entry_at bytes.now) }
{
    let Some(front) = first_entry(bytes) else {
        return Ok(None);
    };
    let Some(name) = Name::new(Vec::from_slice(alloc, front.name)?) else {
        return Ok(None);
    };
    let entry = Entry {
        name,
        attr: front.attr,
        blob: front.blob,
    };
    Ok(Some((entry, front.rest)))
}

/// The first entry in place, so that one that is passed makes no name.
#[tactic(auto, unfolding(crate::specs::Reading::entry_at))]
pub(crate) fn first_entry(bytes: &[u8]) -> Option<Front<'_>>
    ensures entry { option_map (λ f. (named f.name.now f.attr f.blob, f.rest.now)) result ≡ entry_at bytes.now }
    ensures name { IfSome result (λ f. IsName f.name.now) }
{
    let Some((attr, rest)) = attr_from(bytes) else {
        return None;
    };
    let Some((name, rest)) = text_from(rest) else {
        return None;
    };
    if !has_name_form(name) {
        return None;
    }
    let Some((blob, rest)) = take_id(rest) else {
        return None;
    };
    Some(Front {
        name,
        attr,
        blob,
        rest,
    })
}

/// The name of the first entry, and what follows the entry. What stands between is passed by its length.
#[tactic(auto, unfolding(crate::specs::Reading::name_at))]
pub(crate) fn first_name(bytes: &[u8]) -> Option<(&[u8], &[u8])>
    ensures { option_map (λ x. (x.0.now, x.1.now)) result ≡ name_at bytes.now }
{
    let Some((_, rest)) = take_bytes(bytes, ATTR_LEN) else {
        return None;
    };
    let Some((name, rest)) = text_from(rest) else {
        return None;
    };
    let Some((_, rest)) = take_id(rest) else {
        return None;
    };
    Some((name, rest))
}

#[tactic(auto, unfolding(crate::specs::Reading::attr_at))]
fn attr_from(bytes: &[u8]) -> Option<(Attr, &[u8])>
    ensures { option_map (λ x. (x.0, x.1.now)) result ≡ attr_at bytes.now }
{
    let Some(((kind, mode), rest)) = access_from(bytes) else {
        return None;
    };
    let Some(((uid, gid), rest)) = owner_from(rest) else {
        return None;
    };
    let Some(((atime, mtime, ctime), rest)) = times_from(rest) else {
        return None;
    };
    let attr = Attr {
        kind,
        mode,
        uid,
        gid,
        atime,
        mtime,
        ctime,
    };
    Some((attr, rest))
}

/// The kind, and the mode.
#[tactic(auto, unfolding(crate::specs::Reading::access_at))]
fn access_from(bytes: &[u8]) -> Option<((Kind, u32), &[u8])>
    ensures { option_map (λ x. (x.0, x.1.now)) result ≡ access_at bytes.now }
{
    let Some((kind, rest)) = next_kind(bytes) else {
        return None;
    };
    let Some((mode, rest)) = take_u32(rest) else {
        return None;
    };
    if mode > MAX_MODE {
        return None;
    }
    Some(((kind, mode), rest))
}

/// The user, and the group.
#[tactic(auto, unfolding(crate::specs::Reading::owner_at))]
fn owner_from(bytes: &[u8]) -> Option<((u32, u32), &[u8])>
    ensures { option_map (λ x. (x.0, x.1.now)) result ≡ owner_at bytes.now }
{
    let Some((uid, rest)) = take_u32(bytes) else {
        return None;
    };
    let Some((gid, rest)) = take_u32(rest) else {
        return None;
    };
    Some(((uid, gid), rest))
}

/// The moments of the last use, of the content's last change, and of the last change.
#[tactic(auto, unfolding(crate::specs::Reading::times_at))]
fn times_from(bytes: &[u8]) -> Option<((Moment, Moment, Moment), &[u8])>
    ensures { option_map (λ x. ((x.0.0, (x.0.1, x.0.2)), x.1.now)) result ≡ times_at bytes.now }
{
    let Some((atime, rest)) = moment_from(bytes) else {
        return None;
    };
    let Some((mtime, rest)) = moment_from(rest) else {
        return None;
    };
    let Some((ctime, rest)) = moment_from(rest) else {
        return None;
    };
    Some(((atime, mtime, ctime), rest))
}

#[tactic(auto, unfolding(crate::specs::Reading::kind_of))]
fn next_kind(bytes: &[u8]) -> Option<(Kind, &[u8])>
    ensures { option_map (λ x. (x.0, x.1.now)) result ≡ kind_of bytes.now }
{
    let Some((first, rest)) = bytes.split_first() else {
        return None;
    };
    let Some(kind) = kind_from(*first) else {
        return None;
    };
    Some((kind, rest))
}

#[tactic(auto, unfolding(crate::specs::Reading::moment_at))]
fn moment_from(bytes: &[u8]) -> Option<(Moment, &[u8])>
    ensures { option_map (λ x. (x.0, x.1.now)) result ≡ moment_at bytes.now }
{
    let Some((secs, rest)) = take_u64(bytes) else {
        return None;
    };
    let Some((nanos, rest)) = take_u32(rest) else {
        return None;
    };
    let Some(moment) = Moment::new(secs, nanos) else {
        return None;
    };
    Some((moment, rest))
}

/// What stands before the first zero, and after it.
#[tactic(auto, unfolding(crate::specs::Reading::text_at))]
fn text_from(bytes: &[u8]) -> Option<(&[u8], &[u8])>
    ensures { option_map (λ x. (x.0.now, x.1.now)) result ≡ text_at bytes.now }
{
    let Some(end) = first_zero(bytes) else {
        return None;
    };
    Some((&bytes[..end], &bytes[end + 1..]))
}

fn first_zero(bytes: &[u8]) -> Option<usize>
    ensures value { result ≡ position (λ byte. byte == 0) bytes.now }
    ensures bound { IfSome result (λ end. end < length bytes.now) }
{
    bytes.iter().position(|byte| *byte == 0)
}
