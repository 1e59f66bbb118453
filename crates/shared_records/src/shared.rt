// The whole record, written and read.
ghost use Rattle.std.specs.Prelude.{◌≡◌, ◌<◌, List, ℕ, map, OnOk, IfOk, IsErrOf};
ghost use Rattle.outside.specs.View.{list_of};
ghost use Rattle.local_state.specs.Record.{PlainState, ListEntry, plain_state, IsLeast, FitsList};
ghost use Rattle.local_state.specs.Versions.{Version, version_of};
ghost use Rattle.clients_core.specs.Listed.{FitsOthers};
ghost use Rattle.shared_records.specs.Shared.{shared_bytes, HasShared, IsShared};

use crate::others::{decode_others, put_others};
use crate::split::split_shared;
use block_id::Memory;
use local_state::{State, StateError, Triple, decode, encode};
use outside::Pending;
use std::alloc::Global;

/// Where the digit stands that is the form's number.
const DIGIT_PLACE: usize = 17;

/// What a record of several clients holds.
#[derive(Drop)]
pub struct SharedRecord {
    pub state: State,
    pub list: Vec<Pending>,
    /// The greatest versions of the other clients, by rising ids, and of one block by rising clients.
    pub others: Vec<Triple>,
}

/// The record of a state, a list and versions of others.
pub fn encode_shared(
    alloc: Global,
    state: &State,
    list: &[Pending],
    others: &[Triple],
) -> Result<Vec<u8>, Memory>
    requires client { 0 < state.now.client }
    requires least { IsLeast state.now.least }
    requires list { FitsList state.now.known.lives (list_of list.now) }
    requires others { FitsOthers state.now.client (map version_of others.now) }
    ensures bytes { IfOk result (λ v. v.items ≡ shared_bytes (plain_state state.now) (list_of list.now) (map version_of others.now)) }
    ensures has { OnOk result (HasShared (plain_state state.now) (list_of list.now) (map version_of others.now)) }
{
    let mut out = encode(alloc, state, list)?;
    out[DIGIT_PLACE] = b'3';
    put_others(&mut out, others)?;
    Ok(out)
}

/// What a record of several clients holds.
pub fn decode_shared(alloc: Global, bytes: &[u8]) -> Result<SharedRecord, StateError>
    // What is read has these bytes.
    ensures is { IfOk result (λ r. IsShared (plain_state r.state) (list_of r.list.items) (map version_of r.others.items) bytes.now) }
    // Nothing else has them.
    ensures only { IfOk result (λ r. (s : PlainState) (list : List ListEntry) (vs : List Version) → IsShared s list vs bytes.now
        → (s ≡ plain_state r.state) × (list ≡ list_of r.list.items) × (vs ≡ map version_of r.others.items)) }
    // Where nothing has these bytes.
    ensures bad_state { IsErrOf result StateError.BadState → (s : PlainState) (list : List ListEntry) (vs : List Version) → ¬ IsShared s list vs bytes.now }
{
    let Some(end) = split_shared(bytes) else {
        return Err(StateError::BadState);
    };
    let mut front = Vec::from_slice(alloc, &bytes[..end])?;
    front[DIGIT_PLACE] = b'2';
    let (state, list) = decode(alloc, &front)?;
    let others = decode_others(alloc, &bytes[end..])?;
    Ok(SharedRecord {
        state,
        list,
        others,
    })
}
