// The state and the list of a record, read.
ghost use Rattle.std.specs.Prelude.{◌≡◌, ◌<◌, List, [], None, Some, IfOk, IfSome, IsErrOf};
ghost use Rattle.std.specs.Option.{option_map};
ghost use Rattle.std.specs.FinMap as fin;
ghost use Rattle.outside.specs.View.{list_of, pending_of, at_of, change_of};
ghost use Rattle.local_state.specs.Known.{plain_entry, zero_id, IsNext};
ghost use Rattle.local_state.specs.Record.{PlainState, ListEntry, plain_state, plain_record, comes_after, may_change, has_bytes, IsRecord};
ghost use Rattle.local_state.specs.Reading.{Gives, flag_at, form_at, least_at, known_at, lives_at, table_at, name_at, change_at, entry_at, entries_at, list_at, head_at, record_at};

use crate::known::Known;
use crate::life::Life;
use crate::state::{Form, State, StateError};
use crate::writing::{LIFE_LEN, MAGIC_LEN, MAGIC_NEWER, MAGIC_OLDER};
use block_id::BlockId;
use byte_fields::{take_array, take_bytes, take_id, take_u32, take_u64};
use outside::{Change, FileName, Pending};
use std::alloc::Global;

pub fn flag_of(bytes: &[u8]) -> Option<(bool, &[u8])>
    ensures { option_map (λ x. (x.0, x.1.now)) result ≡ flag_at bytes.now }
{
    match bytes {
        [0, rest @ ..] => Some((false, rest)),
        [1, rest @ ..] => Some((true, rest)),
        _ => None,
    }
}

fn form_of(bytes: &[u8]) -> Option<(Form, &[u8])>
    ensures { option_map (λ x. (x.0, x.1.now)) result ≡ form_at bytes.now }
{
    if bytes.starts_with(&MAGIC_OLDER) {
        return Some((Form::Older, &bytes[MAGIC_LEN..]));
    }
    if bytes.starts_with(&MAGIC_NEWER) {
        return Some((Form::Newer, &bytes[MAGIC_LEN..]));
    }
    None
}

pub fn least_of(form: Form, bytes: &[u8]) -> Option<(u8, &[u8])>
    ensures { option_map (λ x. (x.0, x.1.now)) result ≡ least_at form bytes.now }
{
    match form {
        Form::Older => Some((1, bytes)),
        Form::Newer => match bytes {
            [least, rest @ ..] if *least > 0 && *least < 3 => Some((*least, rest)),
            _ => None,
        },
    }
}

#[tactic(auto, unfolding(crate::specs::Reading::known_at))]
pub fn known_of(previous: BlockId, bytes: &[u8]) -> Option<((BlockId, Life), &[u8])>
    ensures reads { option_map (λ x. (plain_entry x.0, x.1.now)) result ≡ known_at previous.0 bytes.now }
    ensures next { IfSome result (λ x. IsNext previous.0 x.0.0.0 x.0.1) }
{
    let (id, rest) = take_id(bytes)?;
    let (version, rest) = take_u64(rest)?;
    let (live, rest) = flag_of(rest)?;
    if !previous.cmp(&id).is_lt() || version == 0 {
        return None;
    }
    Some(((id, Life { version, live }), rest))
}

fn lives_of<'a>(known: &mut Known, count: u64, bytes: &'a [u8]) -> Result<&'a [u8], StateError>
    requires { known.old.lives ≡ fin.empty }
    ensures { Gives (λ rest. (known.new.lives, rest.now)) result (lives_at count zero_id fin.empty bytes.now) }
{
    known.reserve((bytes.len() / LIFE_LEN).min(count as usize))?;
    let mut previous = BlockId([0; 16]);
    let mut rest = bytes;
    'lives: for _ in 0..count {
        let Some(((id, life), after)) = known_of(previous, rest) else {
            return Err(StateError::BadState);
        };
        known.learn(&id, life)?;
        previous = id;
        rest = after;
    }
    Ok(rest)
}

#[tactic(auto, unfolding(crate::specs::Reading::table_at))]
fn table_of<'a>(known: &mut Known, bytes: &'a [u8]) -> Result<&'a [u8], StateError>
    requires { known.old.lives ≡ fin.empty }
    ensures { Gives (λ rest. (known.new.lives, rest.now)) result (table_at bytes.now) }
{
    let Some((count, rest)) = take_u64(bytes) else {
        return Err(StateError::BadState);
    };
    lives_of(known, count, rest)
}

#[tactic(auto, unfolding(crate::specs::Reading::name_at))]
pub fn name_of(bytes: &[u8]) -> Option<(FileName, &[u8])>
    ensures { option_map (λ x. (at_of x.0, x.1.now)) result ≡ name_at bytes.now }
{
    let (is_block, rest) = flag_of(bytes)?;
    if !is_block {
        return Some((FileName::Config, rest));
    }
    let (id, rest) = take_id(rest)?;
    Some((FileName::Block(id), rest))
}

#[tactic(auto, unfolding(crate::specs::Reading::change_at))]
fn change_in(alloc: Global, bytes: &[u8]) -> Result<(Change, &[u8]), StateError>
    ensures { Gives (λ x. (change_of x.0, x.1.now)) result (change_at bytes.now) }
{
    let Some((has_bytes, rest)) = flag_of(bytes) else {
        return Err(StateError::BadState);
    };
    if !has_bytes {
        return Ok((Change::Removal, rest));
    }
    let Some((len, rest)) = take_u32(rest) else {
        return Err(StateError::BadState);
    };
    let Some((new, rest)) = take_bytes(rest, len as usize) else {
        return Err(StateError::BadState);
    };
    Ok((Change::Bytes(Vec::from_slice(alloc, new)?), rest))
}

pub fn comes_after(previous: Option<FileName>, name: FileName) -> bool
    ensures { result ≡ comes_after (option_map at_of previous) (at_of name) }
{
    match previous {
        None => true,
        Some(FileName::Config) => matches!(name, FileName::Block(_)),
        Some(FileName::Block(other)) => match name {
            FileName::Config => false,
            FileName::Block(id) => other.cmp(&id).is_lt(),
        },
    }
}

fn may_change(known: &Known, name: FileName, change: &Change) -> bool
    ensures { result ≡ may_change known.now.lives (at_of name) (has_bytes (change_of change.now)) }
{
    match name {
        FileName::Config => matches!(change, Change::Bytes(_)),
        FileName::Block(id) => match change {
            Change::Bytes(_) => known.is_live(&id),
            Change::Removal => known.is_used(&id) && !known.is_live(&id),
        },
    }
}

#[tactic(auto, unfolding(crate::specs::Reading::entry_at))]
fn entry_of<'a>(
    alloc: Global,
    known: &Known,
    previous: Option<FileName>,
    bytes: &'a [u8],
) -> Result<(Pending, &'a [u8]), StateError>
    ensures { Gives (λ x. (pending_of x.0, x.1.now)) result (entry_at known.now.lives (option_map at_of previous) bytes.now) }
{
    let Some((name, rest)) = name_of(bytes) else {
        return Err(StateError::BadState);
    };
    let (change, rest) = change_in(alloc, rest)?;
    if !comes_after(previous, name) || !may_change(known, name, &change) {
        return Err(StateError::BadState);
    }
    Ok((Pending { name, change }, rest))
}

fn entries_of<'a>(
    alloc: Global,
    known: &Known,
    count: u64,
    bytes: &'a [u8],
) -> Result<(Vec<Pending>, &'a [u8]), StateError>
    ensures { Gives (λ x. (list_of x.0.items, x.1.now)) result (entries_at known.now.lives count None [] bytes.now) }
{
    let mut list = Vec::new(alloc);
    let mut previous = None;
    let mut rest = bytes;
    'entries: for _ in 0..count {
        let (entry, after) = entry_of(alloc, known, previous, rest)?;
        previous = Some(entry.name);
        list.push(entry)?;
        rest = after;
    }
    Ok((list, rest))
}

#[tactic(auto, unfolding(crate::specs::Reading::list_at))]
fn list_in<'a>(
    alloc: Global,
    known: &Known,
    bytes: &'a [u8],
) -> Result<(Vec<Pending>, &'a [u8]), StateError>
    ensures { Gives (λ x. (list_of x.0.items, x.1.now)) result (list_at known.now.lives bytes.now) }
{
    let Some((count, rest)) = take_u64(bytes) else {
        return Err(StateError::BadState);
    };
    entries_of(alloc, known, count, rest)
}

#[tactic(auto, unfolding(crate::specs::Reading::head_at))]
fn head_of(alloc: Global, bytes: &[u8]) -> Option<(State, &[u8])>
    ensures reads { option_map (λ x. (plain_state x.0, x.1.now)) result ≡ head_at bytes.now }
    ensures nothing_known { IfSome result (λ x. x.0.known.lives ≡ fin.empty) }
{
    let (form, rest) = form_of(bytes)?;
    let (marked, rest) = flag_of(rest)?;
    let (least, rest) = least_of(form, rest)?;
    let (fs_id, rest) = take_id(rest)?;
    let (key_salt, rest) = take_array::<32>(rest)?;
    let (key_digest, rest) = take_array::<32>(rest)?;
    let (client, rest) = take_u32(rest)?;
    if client == 0 {
        return None;
    }
    let state = State {
        marked,
        least,
        fs_id,
        key_salt,
        key_digest,
        client,
        known: Known::new(alloc),
    };
    Some((state, rest))
}

#[tactic(auto, unfolding(crate::specs::Reading::record_at))]
fn record_of(alloc: Global, bytes: &[u8]) -> Result<(State, Vec<Pending>), StateError>
    ensures { Gives (λ x. (plain_state x.0, list_of x.1.items)) result (record_at bytes.now) }
{
    let Some((mut state, rest)) = head_of(alloc, bytes) else {
        return Err(StateError::BadState);
    };
    let rest = table_of(&mut state.known, rest)?;
    let (list, rest) = list_in(alloc, &state.known, rest)?;
    if !rest.is_empty() {
        return Err(StateError::BadState);
    }
    Ok((state, list))
}

/// The state and the list of a record.
pub fn decode(alloc: Global, bytes: &[u8]) -> Result<(State, Vec<Pending>), StateError>
    // What is read has these bytes, in one of the forms.
    ensures is_record { IfOk result (λ x. IsRecord (plain_state x.0) (list_of x.1.items) bytes.now) }
    // No other state and list have them.
    ensures only { IfOk result (λ x. (state : PlainState) (list : List ListEntry) → IsRecord state list bytes.now → plain_record x ≡ (state, list)) }
    // Where no state and list have these bytes.
    ensures bad_state { IsErrOf result StateError.BadState → (state : PlainState) (list : List ListEntry) → ¬ IsRecord state list bytes.now }
{
    record_of(alloc, bytes)
}
