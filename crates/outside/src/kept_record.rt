// A record in memory.
ghost use Rattle.std.specs.Prelude.{◌≡◌, ◌≤◌, ℕ, length, OnOk, option_map, vec_capacity};
ghost use Rattle.std.specs.declared.option.Option.TheVariants.{Some};
ghost use Rattle.outside.specs.View.{bytes_of};

use block_id::Memory;
use std::alloc::Global;
use std::marker::Model;

/// What a keeper knows of its record, with the memory for the next one.
#[derive(Drop)]
pub struct KeptRecord {
    is_kept: bool,
    bytes: Vec<u8>,
}

impl Model for KeptRecord {
    ghost use Rattle.std.specs.Prelude.{vec_capacity, if◌then◌else◌};
    ghost use Rattle.std.specs.declared.option.Option.TheVariants.{None, Some};
    ghost use Rattle.outside.specs.Kept.{KeptState};

    ghost Value = { KeptState };

    ghost view = { λ k. record { kept = if k.is_kept then Some k.bytes.items else None; room = vec_capacity k.bytes } };
}

impl KeptRecord {
    /// This record, or none.
    pub fn new(alloc: Global, kept: Option<Vec<u8>>) -> KeptRecord
        ensures { result.kept ≡ bytes_of kept }
    {
        KeptRecord {
            is_kept: kept.is_some(),
            bytes: kept.unwrap_or(Vec::new(alloc)),
        }
    }

    /// The record's bytes.
    pub fn get(&self) -> Option<&[u8]>
        ensures { option_map (λ bytes. bytes.now) result ≡ self.now.kept }
    {
        if self.is_kept {
            Some(&self.bytes)
        } else {
            None
        }
    }

    /// Takes the memory for records of up to `len` bytes.
    pub fn prepare(&mut self, len: usize) -> Result<(), Memory>
        ensures ok { OnOk result (len ≤ self.new.room) }
        ensures kept { self.new.kept ≡ self.old.kept }
        ensures room { self.old.room ≤ self.new.room }
    {
        let more = len.saturating_sub(self.bytes.len());
        self.bytes.reserve(more)?;
        Ok(())
    }

    /// Keeps these bytes, for which there is memory.
    pub fn keep(&mut self, bytes: &[u8])
        requires { length bytes.now ≤ self.old.room }
        ensures kept { self.new.kept ≡ Some bytes.now }
        ensures room { self.old.room ≤ self.new.room }
    {
        self.bytes.clear();
        match self.bytes.extend_from_slice(bytes) {
            Ok(()) => self.is_kept = true,
            Err(_) => unreachable!(),
        }
    }
}
