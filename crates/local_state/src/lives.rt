// The program's map from ids to lives, as a finite map.
ghost use Rattle.std.specs.Prelude.{◌≡◌, ◌+◌, ◌<◌, ◌≤◌, map, filter, IsSome, IfOk, OnOk, OnErr, None};
ghost use Rattle.std.specs.HashMap.{spare};
ghost use Rattle.std.specs.FinMap as fin;
ghost use Rattle.local_state.specs.Known.{lives_of, plain_entry, HaveDistinctIds, is_free, IsFirstFree};

use crate::life::Life;
use block_id::{BlockId, Memory};
use std::alloc::Global;
use std::collections::HashMap;

/// The id that is never used.
const ZERO_ID: [u8; 16] = [0; 16];

pub(crate) fn life_of(lives: &HashMap<BlockId, Life>, id: &BlockId) -> Option<Life>
    ensures { result ≡ fin.get (lives_of lives.now.entries) id.now.0 }
{
    lives.get(id).copied()
}

/// Gives a new id its life, in memory that was taken before.
pub(crate) fn add_life(lives: &mut HashMap<BlockId, Life>, id: BlockId, life: Life)
    requires new { fin.get (lives_of lives.old.entries) id.0 ≡ None }
    requires room { 0 < spare lives.old }
    ensures lives { lives_of lives.new.entries ≡ fin.insert (lives_of lives.old.entries) id.0 life }
    ensures room { spare lives.old ≤ spare lives.new + 1 }
{
    match lives.insert(id, life) {
        Ok(_) => {}
        Err(_) => unreachable!(),
    }
}

/// Gives a used id another life.
pub(crate) fn change_life(lives: &mut HashMap<BlockId, Life>, id: &BlockId, life: Life)
    requires { IsSome (fin.get (lives_of lives.old.entries) id.now.0) }
    ensures lives { lives_of lives.new.entries ≡ fin.insert (lives_of lives.old.entries) id.now.0 life }
    ensures room { spare lives.new ≡ spare lives.old }
{
    if let Some(place) = lives.get_mut(id) {
        *place = life;
    }
}

/// Gives an id a life, in memory that was taken before.
pub(crate) fn set_life(lives: &mut HashMap<BlockId, Life>, id: &BlockId, life: Life)
    requires { 0 < spare lives.old }
    ensures lives { lives_of lives.new.entries ≡ fin.insert (lives_of lives.old.entries) id.now.0 life }
    ensures room { spare lives.old ≤ spare lives.new + 1 }
{
    match lives.insert(*id, life) {
        Ok(_) => {}
        Err(_) => unreachable!(),
    }
}

/// Gives an id a life, in memory that is taken where it is needed.
pub(crate) fn put_life(
    lives: &mut HashMap<BlockId, Life>,
    id: &BlockId,
    life: Life,
) -> Result<(), Memory>
    ensures ok { OnOk result (lives_of lives.new.entries ≡ fin.insert (lives_of lives.old.entries) id.now.0 life) }
    ensures err { OnErr result (lives_of lives.new.entries ≡ lives_of lives.old.entries) }
{
    lives.insert(*id, life)?;
    Ok(())
}

fn entries_of(alloc: Global, lives: &HashMap<BlockId, Life>) -> Result<Vec<(BlockId, Life)>, Memory>
    ensures entries { IfOk result (λ v. v.items ≡ lives.now.entries) }
    ensures distinct { HaveDistinctIds lives.now.entries }
{
    let mut entries = Vec::with_capacity(alloc, lives.len())?;
    for (id, life) in lives {
        entries.push((*id, *life))?;
    }
    Ok(entries)
}

/// The entries by rising ids.
pub(crate) fn sorted_lives(
    alloc: Global,
    lives: &HashMap<BlockId, Life>,
) -> Result<Vec<(BlockId, Life)>, Memory>
    ensures { IfOk result (λ v. map plain_entry v.items ≡ fin.entries (lives_of lives.now.entries)) }
{
    let mut entries = entries_of(alloc, lives)?;
    entries.sort_unstable();
    Ok(entries)
}

/// The ids of the live ones among these entries, in the same order.
pub(crate) fn live_of(alloc: Global, entries: &[(BlockId, Life)]) -> Result<Vec<BlockId>, Memory>
    ensures { IfOk result (λ ids. ids.items ≡ map (λ e. e.0) (filter (λ e. e.1.live) entries.now)) }
{
    let mut ids = Vec::with_capacity(alloc, entries.len())?;
    for entry in entries {
        if entry.1.live {
            ids.push(entry.0)?;
        }
    }
    Ok(ids)
}

fn is_free(lives: &HashMap<BlockId, Life>, id: &BlockId) -> bool
    ensures { result ≡ is_free (lives_of lives.now.entries) id.now.0 }
{
    life_of(lives, id).is_none() && id.0 != ZERO_ID
}

pub(crate) fn first_free(lives: &HashMap<BlockId, Life>, drawn: BlockId) -> BlockId
    ensures { IsFirstFree (lives_of lives.now.entries) drawn.0 result.0 }
{
    let mut id = drawn;
    // Of so many ids in a row one is neither used nor zero.
    'candidates: for _ in 0..lives.len() + 2 {
        if is_free(lives, &id) {
            return id;
        }
        id = id.next();
    }
    unreachable!()
}
