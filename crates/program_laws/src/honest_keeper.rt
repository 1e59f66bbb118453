// A record in memory that is kept as it was saved.
ghost use Rattle.std.specs.Prelude.{◌≡◌, ◌⊎◌, ◌≤◌, ℕ, List, [], length, IfOk, OnOk, OnErr};
ghost use Rattle.std.specs.declared.option.Option.{Option};
ghost use Rattle.std.specs.declared.option.Option.TheVariants.{None, Some};
ghost use Rattle.outside.specs.Causes.{GetHasCause, RoseBy};
ghost use Rattle.outside.specs.View.{bytes_of};
ghost use Rattle.program_laws.specs.Honest.{IsHonestKeeper};

use memory_outside::MemoryKeeper;
use outside::{Failed, GetFail, Keeper, Memory, WholeKeeper};
use std::alloc::Global;
use std::marker::Model;

/// A record in memory whose loads fail for want of memory alone, and whose saves don't fail.
#[derive(Drop)]
pub struct HonestKeeper {
    keeper: MemoryKeeper,
}

impl Model for HonestKeeper {
    ghost use Rattle.memory_outside.specs.Keepers.{KeeperState};
    ghost use Rattle.program_laws.specs.Honest.{IsHonestKeeper};

    ghost Value = { KeeperState };

    ghost view = { λ k. k.keeper };

    ghost invariant = { λ k. IsHonestKeeper k.keeper };
}

impl HonestKeeper {
    /// Nothing is kept.
    pub fn new(alloc: Global) -> HonestKeeper
        ensures bare { result.kept ≡ None }
        ensures honest { IsHonestKeeper result }
    {
        HonestKeeper {
            keeper: MemoryKeeper::new(alloc, None, Vec::new(alloc)),
        }
    }

    /// No call of it ever failed.
    pub fn attest(&self)
        ensures { IsHonestKeeper self.now }
    {
        let _keeper = &self.keeper;
    }
}

impl Keeper for HonestKeeper {
    ghost kept = { λ k. k.kept };

    ghost room = { λ k. k.room };

    ghost faults = { λ k. k.faults };

    ghost takes = { λ bytes. Unit {0} };

    fn load(&mut self, alloc: Global) -> Result<Option<Vec<u8>>, GetFail> {
        self.keeper.load(alloc)
    }

    fn prepare(&mut self, alloc: Global, len: usize) -> Result<(), Memory> {
        self.keeper.prepare(alloc, len)
    }

    fn save(&mut self, bytes: &[u8]) -> Result<(), Failed> {
        self.keeper.save(bytes)
    }

    ghost takes_plain = { λ bytes plain. tt };
}

impl WholeKeeper for HonestKeeper {
    ghost takes_all = { λ bytes. tt };
}
