// The table of known versions.
ghost use Rattle.std.specs.Prelude.{◌≡◌, ◌≢◌, ◌+◌, ◌-◌, ◌^◌, ◌<◌, ◌≤◌, ◌↔◌, true, false, IsErr, map, IfSome, IfOk, MatchOption, OnOk, OnErr};
ghost use Rattle.std.specs.FinMap as fin;
ghost use Rattle.local_state.specs.Known.{life_at, version_at, is_live_at, is_used_at, version_if_live, is_last, raised_version, zero_id, plain_entry, live_ids, CanRaise, FitsLife, FitLives, IsFirstFree};

use crate::life::Life;
use crate::lives::{
    add_life, change_life, first_free, life_of, live_of, put_life, set_life, sorted_lives,
};
use block_id::{BlockId, Memory};
use std::alloc::Global;
use std::collections::HashMap;
use std::marker::Model;

/// A version can't rise: it is at the end of its type.
#[derive(Clone, Copy, Debug, PartialEq, Eq)]
pub struct Spent;

/// A finite map from ids of blocks to a version and whether the block lives. An id is used where it is in the map.
#[derive(Drop)]
pub struct Known {
    lives: HashMap<BlockId, Life>,
}

impl Model for Known {
    ghost use Rattle.std.specs.HashMap.{spare};
    ghost use Rattle.local_state.specs.Known.{KnownTable, table_code, lives_of, FitLives};

    ghost Value = { KnownTable };

    ghost coded = { table_code };

    ghost view = { λ k. record { lives = lives_of k.lives.entries; spare = spare k.lives } };

    ghost invariant = { λ k. FitLives (lives_of k.lives.entries) };
}

impl Known {
    /// Nothing is known.
    pub fn new(alloc: Global) -> Known
        ensures { result.lives ≡ fin.empty }
    {
        Known {
            lives: HashMap::new(alloc),
        }
    }

    /// How many ids are used.
    pub fn len(&self) -> usize
        ensures len { result ≡ fin.len self.now.lives }
        ensures bound { result < 2 ^ 63 }
        ensures fits { FitLives self.now.lives }
    {
        self.lives.len()
    }

    /// The version of a used id.
    pub fn version(&self, id: &BlockId) -> Option<u64>
        ensures { result ≡ version_at self.now id.now.0 }
    {
        life_of(&self.lives, id).map(|life| life.version)
    }

    /// The version of a live id.
    pub fn live_version(&self, id: &BlockId) -> Option<u64>
        ensures { result ≡ version_if_live (life_at self.now id.now.0) }
    {
        let life = life_of(&self.lives, id)?;
        if life.live { Some(life.version) } else { None }
    }

    /// The version that a raise gives: the first of a new id, or one more.
    pub fn next_version(&self, id: &BlockId) -> u64
        requires { is_last (life_at self.now id.now.0) ≡ false }
        ensures { result ≡ raised_version (life_at self.now id.now.0) }
    {
        match self.version(id) {
            Some(version) => version + 1,
            None => 1,
        }
    }

    /// Whether the id's version can't rise.
    pub fn is_spent(&self, id: &BlockId) -> bool
        ensures { result ≡ is_last (life_at self.now id.now.0) }
    {
        self.version(id) == Some(u64::MAX)
    }

    /// Whether the id is used and its block lives.
    pub fn is_live(&self, id: &BlockId) -> bool
        ensures { result ≡ is_live_at self.now id.now.0 }
    {
        life_of(&self.lives, id).is_some_and(|life| life.live)
    }

    /// Whether the id is in the map.
    pub fn is_used(&self, id: &BlockId) -> bool
        ensures { result ≡ is_used_at self.now id.now.0 }
    {
        life_of(&self.lives, id).is_some()
    }

    /// Takes memory for `n` new ids.
    pub fn reserve(&mut self, n: usize) -> Result<(), Memory>
        ensures room { OnOk result (n ≤ self.new.spare) }
        ensures lives { self.new.lives ≡ self.old.lives }
        ensures spare { self.old.spare ≤ self.new.spare }
    {
        self.lives.reserve(n)?;
        Ok(())
    }

    /// Gives a new id version 1, or a live one the next version, and answers it. It takes no memory.
    pub fn raise(&mut self, id: &BlockId) -> Result<u64, Spent>
        requires { CanRaise self.old id.now.0 }
        ensures version { IfOk result (λ version. version ≡ raised_version (life_at self.old id.now.0)) }
        ensures lives { IfOk result (λ version. self.new.lives
            ≡ fin.insert self.old.lives id.now.0 (record { version = version; live = true })) }
        ensures spent { IsErr result ↔ (version_at self.old id.now.0 ≡ Some (2 ^ 64 - 1)) }
        ensures err { OnErr result (self.new ≡ self.old) }
        ensures spare { MatchOption (life_at self.old id.now.0) (self.old.spare ≤ self.new.spare + 1)
            (λ _. self.old.spare ≤ self.new.spare) }
        ensures fits { FitLives self.new.lives }
    {
        // With its bytes read the id is known to have 16.
        let _bytes = id.0;
        match life_of(&self.lives, id) {
            None => {
                add_life(
                    &mut self.lives,
                    *id,
                    Life {
                        version: 1,
                        live: true,
                    },
                );
                Ok(1)
            }
            Some(life) if life.version == u64::MAX => Err(Spent),
            Some(life) => {
                let version = life.version + 1;
                change_life(
                    &mut self.lives,
                    id,
                    Life {
                        version,
                        live: true,
                    },
                );
                Ok(version)
            }
        }
    }

    /// Gives an id this life, in memory that was taken before.
    pub fn put(&mut self, id: &BlockId, version: u64, live: bool)
        requires room { 0 < self.old.spare }
        requires not_zero { id.now.0 ≢ zero_id }
        requires from_one { 0 < version }
        ensures lives { self.new.lives ≡ fin.insert self.old.lives id.now.0 (record { version = version; live = live }) }
        ensures spare { self.old.spare ≤ self.new.spare + 1 }
        ensures fits { FitLives self.new.lives }
    {
        // With its bytes read the id is known to have 16.
        let _bytes = id.0;
        set_life(&mut self.lives, id, Life { version, live });
    }

    /// Gives an id a life that was read.
    pub(crate) fn learn(&mut self, id: &BlockId, life: Life) -> Result<(), Memory>
        requires { FitsLife id.now.0 life }
        ensures { OnOk result (self.new.lives ≡ fin.insert self.old.lives id.now.0 life) }
    {
        put_life(&mut self.lives, id, life)
    }

    /// The ids with their lives, by rising ids.
    pub(crate) fn sorted(&self, alloc: Global) -> Result<Vec<(BlockId, Life)>, Memory>
        ensures entries { IfOk result (λ v. map plain_entry v.items ≡ fin.entries self.now.lives) }
        ensures fits { FitLives self.now.lives }
    {
        sorted_lives(alloc, &self.lives)
    }

    /// The live ids, by rising ids.
    pub fn live_ids(&self, alloc: Global) -> Result<Vec<BlockId>, Memory>
        ensures { IfOk result (λ ids. map (λ id. id.0) ids.items ≡ live_ids self.now.lives) }
    {
        let entries = self.sorted(alloc)?;
        live_of(alloc, &entries)
    }

    /// Makes a live id dead. Its version stays.
    pub fn bury(&mut self, id: &BlockId)
        requires { is_live_at self.old id.now.0 ≡ true }
        ensures lives { IfSome (version_at self.old id.now.0) (λ version. self.new.lives
            ≡ fin.insert self.old.lives id.now.0 (record { version = version; live = false })) }
        ensures spare { self.old.spare ≤ self.new.spare }
        ensures fits { FitLives self.new.lives }
    {
        if let Some(life) = life_of(&self.lives, id) {
            change_life(
                &mut self.lives,
                id,
                Life {
                    version: life.version,
                    live: false,
                },
            );
        }
    }

    /// The first id that is neither used nor zero among `drawn`, the next one and so on.
    pub fn fresh(&self, drawn: BlockId) -> BlockId
        ensures { IsFirstFree self.now.lives drawn.0 result.0 }
    {
        first_free(&self.lives, drawn)
    }
}
