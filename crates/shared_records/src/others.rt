// Versions of others as bytes.
ghost use Rattle.std.specs.Prelude.{◌≡◌, ◌++◌, [], map, OnOk, IfOk, Some};
ghost use Rattle.std.specs.Option.{option_map};
ghost use Rattle.local_state.specs.Reading.{Gives};
ghost use Rattle.local_state.specs.Versions.{version_of};
ghost use Rattle.shared_records.specs.Scan.{versions_at, versions_in};
ghost use Rattle.shared_records.specs.Shared.{others_bytes, version_bytes};

use crate::split::triple_of;
use block_id::Memory;
use byte_fields::{put_id, put_u32, put_u64, take_u64};
use local_state::{StateError, Triple};
use std::alloc::Global;

fn put_triple(out: &mut Vec<u8>, triple: &Triple) -> Result<(), Memory>
    ensures { OnOk result (out.new.items ≡ out.old.items ++ version_bytes (version_of triple.now)) }
{
    put_id(out, &triple.id)?;
    put_u32(out, triple.client)?;
    put_u64(out, triple.version)
}

pub(crate) fn put_others(out: &mut Vec<u8>, others: &[Triple]) -> Result<(), Memory>
    ensures { OnOk result (out.new.items ≡ out.old.items ++ others_bytes (map version_of others.now)) }
{
    put_u64(out, others.len() as u64)?;
    'others: for triple in others {
        put_triple(out, triple)?;
    }
    Ok(())
}

/// The versions of others as they stand in a record.
pub fn encode_others(alloc: Global, others: &[Triple]) -> Result<Vec<u8>, Memory>
    ensures { IfOk result (λ v. v.items ≡ others_bytes (map version_of others.now)) }
{
    let mut out = Vec::new(alloc);
    put_others(&mut out, others)?;
    Ok(out)
}

fn triples_at(alloc: Global, count: u64, bytes: &[u8]) -> Result<(Vec<Triple>, &[u8]), StateError>
    ensures { Gives (λ x. (map version_of x.0.items, x.1.now)) result (versions_at count [] bytes.now) }
{
    let mut others = Vec::new(alloc);
    let mut rest = bytes;
    'others: for _ in 0..count {
        let Some((triple, after)) = triple_of(rest) else {
            return Err(StateError::BadState);
        };
        others.push(triple)?;
        rest = after;
    }
    Ok((others, rest))
}

/// The versions of others that stand so in a record.
#[tactic(auto, unfolding(crate::specs::Scan::versions_in))]
pub fn decode_others(alloc: Global, bytes: &[u8]) -> Result<Vec<Triple>, StateError>
    ensures { Gives (λ v. map version_of v.items) result (versions_in bytes.now) }
{
    let Some((count, rest)) = take_u64(bytes) else {
        return Err(StateError::BadState);
    };
    let (others, _) = triples_at(alloc, count, rest)?;
    Ok(others)
}
