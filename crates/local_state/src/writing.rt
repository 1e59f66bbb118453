// The record of a state and a list, written.
ghost use Rattle.std.specs.Int.{w32, to_le_bytes};
ghost use Rattle.std.specs.Prelude.{◌≡◌, ◌<◌, ◌^◌, ◌++◌, map, All, OnOk, IfOk};
ghost use Rattle.std.specs.FinMap as fin;
ghost use Rattle.outside.specs.View.{list_of, pending_of, at_of, change_of};
ghost use Rattle.local_state.specs.Known.{plain_entry, FitLives};
ghost use Rattle.local_state.specs.Record.{plain_state, head_bytes, bytes_by, IsLeast, life_bytes, known_bytes, lives_bytes, name_bytes, change_bytes, entry_bytes, list_bytes, record_bytes, FitsHead, FitsBytes, FitsList, HasRecord};

use crate::known::Known;
use crate::life::Life;
use crate::state::{Form, State};
use block_id::{BlockId, Memory};
use byte_fields::{put_id, put_u32, put_u64};
use outside::{Change, FileName, Pending};
use std::alloc::Global;

/// What a record of each form begins with.
pub(crate) const MAGIC_OLDER: [u8; MAGIC_LEN] = *b"cryfs.localstate;1\0";

pub const MAGIC_NEWER: [u8; MAGIC_LEN] = *b"cryfs.localstate;2\0";

pub const MAGIC_LEN: usize = 19;

/// Where the byte stands that marks a violation, in a record of either form.
pub const MARK_PLACE: usize = MAGIC_LEN;

const HEAD_LEN: usize = 105;

pub(crate) const LIFE_LEN: usize = 25;

const COUNT_LEN: usize = 8;

/// What stands behind the mark, and behind the least format where the form says it.
fn put_rest(out: &mut Vec<u8>, state: &State) -> Result<(), Memory>
    ensures bytes { OnOk result (out.new.items ≡ out.old.items ++ (state.now.fs_id.0 ++ (state.now.key_salt ++ (state.now.key_digest ++ to_le_bytes w32 state.now.client)))) }
    ensures fits { OnOk result (FitsHead (plain_state state.now)) }
{
    put_id(out, &state.fs_id)?;
    out.extend_from_slice(&state.key_salt)?;
    out.extend_from_slice(&state.key_digest)?;
    put_u32(out, state.client)
}

#[tactic(auto, unfolding(crate::specs::Record::head_bytes))]
fn put_head(out: &mut Vec<u8>, state: &State) -> Result<(), Memory>
    ensures bytes { OnOk result (out.new.items ≡ out.old.items ++ head_bytes Form.Newer (plain_state state.now)) }
    ensures fits { OnOk result (FitsHead (plain_state state.now)) }
{
    out.extend_from_slice(&MAGIC_NEWER)?;
    out.push(u8::from(state.marked))?;
    out.push(state.least)?;
    put_rest(out, state)
}

#[tactic(auto, unfolding(crate::specs::Record::head_bytes))]
fn put_older_head(out: &mut Vec<u8>, state: &State) -> Result<(), Memory>
    ensures bytes { OnOk result (out.new.items ≡ out.old.items ++ head_bytes Form.Older (plain_state state.now)) }
    ensures fits { OnOk result (FitsHead (plain_state state.now)) }
{
    out.extend_from_slice(&MAGIC_OLDER)?;
    out.push(u8::from(state.marked))?;
    put_rest(out, state)
}

fn put_life(out: &mut Vec<u8>, id: &BlockId, life: &Life) -> Result<(), Memory>
    ensures { OnOk result (out.new.items ≡ out.old.items ++ life_bytes (plain_entry (id.now, life.now))) }
{
    put_id(out, id)?;
    put_u64(out, life.version)?;
    out.push(u8::from(life.live))?;
    Ok(())
}

fn put_entries(out: &mut Vec<u8>, entries: &[(BlockId, Life)]) -> Result<(), Memory>
    ensures { OnOk result (out.new.items ≡ out.old.items ++ known_bytes (map plain_entry entries.now)) }
{
    put_u64(out, entries.len() as u64)?;
    'lives: for entry in entries {
        put_life(out, &entry.0, &entry.1)?;
    }
    Ok(())
}

fn put_known(alloc: Global, out: &mut Vec<u8>, known: &Known) -> Result<(), Memory>
    ensures bytes { OnOk result (out.new.items ≡ out.old.items ++ lives_bytes known.now.lives) }
    ensures fits { OnOk result (FitLives known.now.lives) }
{
    let entries = known.sorted(alloc)?;
    put_entries(out, &entries)
}

fn put_name(out: &mut Vec<u8>, name: &FileName) -> Result<(), Memory>
    ensures { OnOk result (out.new.items ≡ out.old.items ++ name_bytes (at_of name.now)) }
{
    match name {
        FileName::Config => Ok(out.push(0)?),
        FileName::Block(id) => {
            out.push(1)?;
            put_id(out, id)
        }
    }
}

fn put_change(out: &mut Vec<u8>, change: &Change) -> Result<(), Memory>
    requires { FitsBytes (change_of change.now) }
    ensures { OnOk result (out.new.items ≡ out.old.items ++ change_bytes (change_of change.now)) }
{
    match change {
        Change::Removal => out.push(0)?,
        Change::Bytes(bytes) => {
            out.push(1)?;
            put_u32(out, bytes.len() as u32)?;
            out.extend_from_slice(bytes)?;
        }
    }
    Ok(())
}

fn put_entry(out: &mut Vec<u8>, entry: &Pending) -> Result<(), Memory>
    requires { FitsBytes (change_of entry.now.change) }
    ensures { OnOk result (out.new.items ≡ out.old.items ++ entry_bytes (pending_of entry.now)) }
{
    put_name(out, &entry.name)?;
    put_change(out, &entry.change)
}

fn put_list(out: &mut Vec<u8>, list: &[Pending]) -> Result<(), Memory>
    requires { All (λ entry. FitsBytes (change_of entry.change)) list.now }
    ensures { OnOk result (out.new.items ≡ out.old.items ++ list_bytes (list_of list.now)) }
{
    put_u64(out, list.len() as u64)?;
    'entries: for entry in list {
        put_entry(out, entry)?;
    }
    Ok(())
}

/// How many bytes a record of these has before its list's entries.
fn front_len(state: &State) -> usize
    ensures { fin.len state.now.known.lives < 2 ^ 64 }
{
    let len = HEAD_LEN + 2 * COUNT_LEN;
    state
        .known
        .len()
        .saturating_mul(LIFE_LEN)
        .saturating_add(len)
}

/// The record of a state and a list.
#[tactic(auto, unfolding(crate::specs::Record::bytes_by))]
pub fn encode(alloc: Global, state: &State, list: &[Pending]) -> Result<Vec<u8>, Memory>
    requires client { 0 < state.now.client }
    requires least { IsLeast state.now.least }
    requires list { FitsList state.now.known.lives (list_of list.now) }
    ensures bytes { IfOk result (λ v. v.items ≡ record_bytes (plain_state state.now) (list_of list.now)) }
    ensures has_record { OnOk result (HasRecord (plain_state state.now) (list_of list.now)) }
{
    let mut out = Vec::with_capacity(alloc, front_len(state))?;
    put_head(&mut out, state)?;
    put_known(alloc, &mut out, &state.known)?;
    put_list(&mut out, list)?;
    Ok(out)
}

/// The record of a state and a list in the older form, which takes blocks' files of each format.
#[tactic(auto, unfolding(crate::specs::Record::bytes_by))]
pub fn encode_form1(alloc: Global, state: &State, list: &[Pending]) -> Result<Vec<u8>, Memory>
    requires client { 0 < state.now.client }
    requires least { state.now.least ≡ 1 }
    requires list { FitsList state.now.known.lives (list_of list.now) }
    ensures bytes { IfOk result (λ v. v.items ≡ bytes_by Form.Older (plain_state state.now) (list_of list.now)) }
    ensures has_record { OnOk result (HasRecord (plain_state state.now) (list_of list.now)) }
{
    let mut out = Vec::with_capacity(alloc, front_len(state))?;
    put_older_head(&mut out, state)?;
    put_known(alloc, &mut out, &state.known)?;
    put_list(&mut out, list)?;
    Ok(out)
}
