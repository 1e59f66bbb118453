// A local record in memory.
ghost use Rattle.std.specs.Prelude.{◌≡◌, ◌⊎◌, ◌≤◌, List, ℕ, Bool, length, is_some, IfOk, OnOk, OnErr, IfSome, IfNone, IsErrOf, false, true, [], option_map};
ghost use Rattle.std.specs.declared.option.Option.{Option};
ghost use Rattle.std.specs.declared.option.Option.TheVariants.{None, Some};
ghost use Rattle.outside.specs.Causes.{GetHasCause};
ghost use Rattle.memory_outside.specs.Faults.{FailsWithCause};
ghost use Rattle.memory_outside.specs.Keepers.{failure_at, failure_from, failure_of, load_fails, after_load, after_failed_load, SavesAsSet, CountsSave};
ghost use Rattle.outside.specs.View.{bytes_of};

use crate::memory_vault::contains;
use outside::{Failed, GetFail, Keeper, KeptRecord, Memory, WholeKeeper};
use std::alloc::Global;
use std::marker::Model;

/// A record in memory. Loads and saves can be made to fail.
#[derive(Drop)]
pub struct MemoryKeeper {
    known: KeptRecord,
    faults: u64,
    saves: u64,
    failing: Vec<(u64, bool)>,
    failing_loads: Vec<u64>,
    loads: u64,
    failing_from: Option<(u64, bool)>,
    saves_since: u64,
}

impl Model for MemoryKeeper {
    ghost use Rattle.memory_outside.specs.Keepers.{KeeperState};

    ghost Value = { KeeperState };

    ghost view = { λ k. record {
      kept = k.known.kept;
      room = k.known.room;
      faults = k.faults;
      saves = k.saves;
      failing = k.failing.items;
      failing_loads = k.failing_loads.items;
      loads = k.loads;
      failing_from = k.failing_from;
      saves_since = k.saves_since;
    } };
}

/// Whether the save of this number keeps its record although it fails, or None where it doesn't fail.
fn failure(failing: &[(u64, bool)], number: u64) -> Option<bool>
    ensures { result ≡ failure_at failing.now number }
{
    for failure in failing {
        if failure.0 == number {
            return Some(failure.1);
        }
    }
    None
}

/// The same of saves of which each from one on fails.
fn later_failure(first: Option<(u64, bool)>, number: u64) -> Option<bool>
    ensures { result ≡ failure_from first number }
{
    match first {
        Some((first, keeps)) if first <= number => Some(keeps),
        _ => None,
    }
}

impl MemoryKeeper {
    /// What is kept, the numbers of saves that fail, counted from 1, and whether such a save keeps the new record.
    pub fn new(alloc: Global, kept: Option<Vec<u8>>, fails: Vec<(u64, bool)>) -> MemoryKeeper
        ensures kept { result.kept ≡ bytes_of kept }
        ensures counts { (result.faults ≡ 0) × (result.saves ≡ 0) }
        ensures failing { result.failing ≡ fails.items }
        ensures settings { (result.failing_loads ≡ []) × (result.failing_from ≡ None) }
        ensures counts_since { (result.loads ≡ 0) × (result.saves_since ≡ 0) }
    {
        MemoryKeeper {
            known: KeptRecord::new(alloc, kept),
            faults: 0,
            saves: 0,
            failing: fails,
            failing_loads: Vec::new(alloc),
            loads: 0,
            failing_from: None,
            saves_since: 0,
        }
    }

    /// Makes the loads of these numbers fail, counted from 1 from here on. No save is counted.
    pub fn fail_loads(&mut self, list: Vec<u64>)
        ensures { self.new ≡ record self.old { failing_loads = list.items; loads = 0 } }
    {
        self.failing_loads = list;
        self.loads = 0;
    }

    /// Makes every save from the n-th one on fail, counted from 1 from here on, and keep its record where `takes`. What
    /// was listed for a save counts before. No load is counted.
    pub fn fail_from(&mut self, n: u64, takes: bool)
        ensures { self.new ≡ record self.old { failing_from = Some (n, takes); saves_since = 0 } }
    {
        self.failing_from = Some((n, takes));
        self.saves_since = 0;
    }

    /// How the next save fails, if it does.
    fn next_failure(&self) -> Option<bool>
        ensures { result ≡ failure_of self.now }
    {
        match failure(&self.failing, self.saves.saturating_add(1)) {
            Some(keeps) => Some(keeps),
            None => later_failure(self.failing_from, self.saves_since.saturating_add(1)),
        }
    }

    /// What is kept.
    pub fn kept(&self) -> Option<&[u8]>
        ensures { option_map (λ bytes. bytes.now) result ≡ self.now.kept }
    {
        self.known.get()
    }
}

impl Keeper for MemoryKeeper {
    ghost kept = { λ k. k.kept };

    ghost room = { λ k. k.room };

    ghost faults = { λ k. k.faults };

    ghost takes = { λ bytes. Unit {0} };

    fn load(&mut self, alloc: Global) -> Result<Option<Vec<u8>>, GetFail>
        ensures ok { IfOk result (λ answer. bytes_of answer ≡ self.old.kept) }
        ensures kept { self.new.kept ≡ self.old.kept }
        ensures room { self.old.room ≤ self.new.room }
        ensures cause { GetHasCause self.old.faults self.new.faults result }

        ensures after { OnOk result (self.new ≡ after_load self.old) }
        ensures ok_where_not_listed { OnOk result (load_fails self.old ≡ false) }
        ensures failed_where_listed { IsErrOf result GetFail.Failed → (load_fails self.old ≡ true) × (self.new ≡ after_failed_load self.old) }
        ensures memory { IsErrOf result GetFail.Memory → (load_fails self.old ≡ false) × (self.new ≡ self.old) }
    {
        if contains(&self.failing_loads, self.loads.saturating_add(1)) {
            self.loads = self.loads.saturating_add(1);
            self.faults = self.faults.saturating_add(1);
            return Err(GetFail::Failed);
        }
        let answer = match self.known.get() {
            Some(bytes) => Some(bytes.to_vec(alloc)?),
            None => None,
        };
        self.loads = self.loads.saturating_add(1);
        Ok(answer)
    }

    fn prepare(&mut self, alloc: Global, len: usize) -> Result<(), Memory>
        ensures ok { OnOk result (len ≤ self.new.room) }
        ensures kept { self.new.kept ≡ self.old.kept }
        ensures room { self.old.room ≤ self.new.room }
        ensures faults { self.new.faults ≡ self.old.faults }

        ensures saves { self.new.saves ≡ self.old.saves }
        ensures failing { self.new.failing ≡ self.old.failing }
        ensures rest { self.new ≡ record self.old { room = self.new.room } }
    {
        let _ = alloc;
        self.known.prepare(len)
    }

    fn save(&mut self, bytes: &[u8]) -> Result<(), Failed>
        requires { length bytes.now ≤ self.old.room }
        ensures ok { OnOk result (self.new.kept ≡ Some bytes.now) }
        ensures err { OnErr result ((self.new.kept ≡ self.old.kept) ⊎ (self.new.kept ≡ Some bytes.now)) }
        ensures room { self.old.room ≤ self.new.room }
        ensures cause { FailsWithCause self.old.faults self.new.faults result }

        ensures as_set { SavesAsSet self.old self.new bytes.now result }
        ensures counts { CountsSave self.old self.new }
    {
        let failure = self.next_failure();
        self.saves = self.saves.saturating_add(1);
        self.saves_since = self.saves_since.saturating_add(1);
        match failure {
            Some(keeps) => {
                if keeps {
                    self.known.keep(bytes);
                }
                self.faults = self.faults.saturating_add(1);
                Err(Failed)
            }
            None => {
                self.known.keep(bytes);
                Ok(())
            }
        }
    }

    ghost takes_plain = { λ bytes plain. tt };
}

impl WholeKeeper for MemoryKeeper {
    ghost takes_all = { λ bytes. tt };
}
