// Where the versions of others begin.
ghost use Rattle.std.specs.Prelude.{◌≡◌, None};
ghost use Rattle.std.specs.Option.{option_map};
ghost use Rattle.local_state.specs.Versions.{version_of};
ghost use Rattle.clients_core.specs.Listed.{comes_by};
ghost use Rattle.shared_records.specs.Scan.{version_at, are_others, others_past, split_at};

use crate::front::front_of;
use byte_fields::{take_id, take_u32, take_u64};
use local_state::{MAGIC_LEN, Triple};

/// What a record of several clients begins with.
pub const MAGIC_SHARED: [u8; MAGIC_LEN] = *b"cryfs.localstate;3\0";

#[tactic(auto, unfolding(crate::specs::Scan::version_at))]
pub(crate) fn triple_of(bytes: &[u8]) -> Option<(Triple, &[u8])>
    ensures { option_map (λ x. (version_of x.0, x.1.now)) result ≡ version_at bytes.now }
{
    let (id, rest) = take_id(bytes)?;
    let (client, rest) = take_u32(rest)?;
    let (version, rest) = take_u64(rest)?;
    let triple = Triple {
        id,
        client,
        version,
    };
    Some((triple, rest))
}

fn comes_by(previous: Option<Triple>, triple: &Triple) -> bool
    ensures { result ≡ comes_by (option_map version_of previous) (version_of triple.now) }
{
    match previous {
        None => true,
        Some(other) => {
            let by_id = other.id.cmp(&triple.id);
            by_id.then(other.client.cmp(&triple.client)).is_lt()
        }
    }
}

/// Whether the bytes are versions of others than this client, as many as they say, and no more.
#[tactic(auto, unfolding(crate::specs::Scan::are_others))]
fn are_others(own: u32, bytes: &[u8]) -> bool
    ensures { result ≡ are_others own bytes.now }
{
    let Some((count, rest)) = take_u64(bytes) else {
        return false;
    };
    match others_past(own, count, rest) {
        Some(rest) => rest.is_empty(),
        None => false,
    }
}

/// What stands after so many versions of others than this client.
#[tactic(auto, unfolding(crate::specs::Scan::others_past))]
fn others_past(own: u32, count: u64, bytes: &[u8]) -> Option<&[u8]>
    ensures { option_map (λ rest. rest.now) result ≡ others_past own count None bytes.now }
{
    let mut previous = None;
    let mut rest = bytes;
    'others: for _ in 0..count {
        let (triple, after) = triple_of(rest)?;
        if !comes_by(previous, &triple) || triple.client == own {
            return None;
        }
        previous = Some(triple);
        rest = after;
    }
    Some(rest)
}

/// Where the versions of others begin in a record of several clients. None where the bytes aren't one. It takes no memory.
#[tactic(auto, unfolding(crate::specs::Scan::split_at))]
pub fn split_shared(bytes: &[u8]) -> Option<usize>
    ensures { result ≡ split_at bytes.now }
{
    if !bytes.starts_with(&MAGIC_SHARED) {
        return None;
    }
    let (client, entries) = front_of(&bytes[MAGIC_LEN..])?;
    if !are_others(client, entries) {
        return None;
    }
    Some(bytes.len().saturating_sub(entries.len()))
}
