// An input in memory that doesn't fail.
ghost use Rattle.std.specs.Prelude.{◌≡◌, ◌≤◌, ◌<◌, ℕ, List, [], length, take, IfOk, OnOk, OnErr};
ghost use Rattle.std.specs.declared.option.Option.TheVariants.{Some};
ghost use Rattle.outside.specs.Causes.{RoseBy};
ghost use Rattle.outside.specs.Streams.{WereTaken, Ends};
ghost use Rattle.program_laws.specs.Honest.{IsHonestSource};

use block_id::Failed;
use memory_outside::MemorySource;
use outside::Source;
use std::alloc::Global;
use std::marker::Model;

/// Bytes that are given in order, without a failing call.
#[derive(Drop)]
pub struct HonestSource {
    source: MemorySource,
}

impl Model for HonestSource {
    ghost use Rattle.memory_outside.specs.MemoryStreams.{Feed};
    ghost use Rattle.program_laws.specs.Honest.{IsHonestSource};

    ghost Value = { Feed };

    ghost view = { λ s. s.source };

    ghost invariant = { λ s. IsHonestSource s.source };
}

impl HonestSource {
    /// These bytes.
    pub fn new(alloc: Global, bytes: Vec<u8>) -> HonestSource
        ensures rest { result.rest ≡ bytes.items }
        ensures honest { IsHonestSource result }
    {
        HonestSource {
            source: MemorySource::new(bytes, 65536, Vec::new(alloc)),
        }
    }

    /// No call of it ever failed.
    pub fn attest(&self)
        ensures { IsHonestSource self.now }
    {
        let _source = &self.source;
    }
}

impl Source for HonestSource {
    ghost rest = { λ s. Some s.rest };

    ghost faults = { λ s. s.faults };

    ghost took = { λ old new bytes. WereTaken (Some old.rest) (Some new.rest) bytes };

    fn read(&mut self, piece: &mut [u8]) -> Result<usize, Failed> {
        self.source.read(piece)
    }
}
