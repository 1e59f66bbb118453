// A directory in memory that gives what was last written.
ghost use Rattle.std.specs.Prelude.{◌≡◌, ◌⊎◌, ◌≤◌, ℕ, List, [], length, true, false, IfOk, IfSome, OnOk, OnErr, IsErrOf};
ghost use Rattle.std.specs.declared.option.Option.{Option};
ghost use Rattle.std.specs.declared.option.Option.TheVariants.{None, Some};
ghost use Rattle.outside.specs.Causes.{GetHasCause};
ghost use Rattle.outside.specs.Trace.{got, put as put_call, removed, adds};
ghost use Rattle.outside.specs.View.{at_of, bytes_of};
ghost use Rattle.memory_outside.specs.Vaults.{names_in};
ghost use Rattle.program_laws.specs.Honest.{IsHonestVault};

use memory_outside::MemoryVault;
use outside::{ByteLine, FileName, GetFail, Listing, MAX_NAMES, Vault};
use std::alloc::Global;
use std::marker::Model;

/// A directory in memory whose gets give what was last written, and whose calls fail for want of memory alone.
#[derive(Drop)]
pub struct HonestVault {
    vault: MemoryVault,
}

impl Model for HonestVault {
    ghost use Rattle.memory_outside.specs.Vaults.{VaultState};
    ghost use Rattle.program_laws.specs.Honest.{IsHonestVault};

    ghost Value = { VaultState };

    ghost view = { λ v. v.vault };

    ghost invariant = { λ v. IsHonestVault v.vault };
}

impl HonestVault {
    /// An empty directory.
    pub fn new(alloc: Global) -> HonestVault
        ensures empty { result.trace ≡ [] }
        ensures honest { IsHonestVault result }
    {
        HonestVault {
            vault: MemoryVault::new(alloc),
        }
    }

    /// No get of it ever gave anything else than what was last written, and no call failed.
    pub fn attest(&self)
        ensures { IsHonestVault self.now }
    {
        let _vault = &self.vault;
    }
}

impl Vault for HonestVault {
    ghost trace = { λ v. Some v.trace };

    ghost faults = { λ v. v.faults };

    fn get(
        &mut self,
        alloc: Global,
        name: &FileName,
        max: usize,
    ) -> Result<Option<Vec<u8>>, GetFail> {
        self.vault.get(alloc, name, max)
    }

    fn put(&mut self, alloc: Global, name: &FileName, bytes: &[u8]) -> Result<(), GetFail> {
        self.vault.put(alloc, name, bytes)
    }

    fn remove(&mut self, alloc: Global, name: &FileName) -> Result<(), GetFail> {
        self.vault.remove(alloc, name)
    }
}

impl Listing for HonestVault {
    ghost names = { λ v. Some (names_in v) };

    /// More files than a listing gives are want of memory, since no call fails otherwise.
    fn list(&mut self, alloc: Global) -> Result<Vec<ByteLine>, GetFail> {
        if self.vault.files().len() > MAX_NAMES {
            return Err(GetFail::Memory);
        }
        self.vault.list(alloc)
    }
}
