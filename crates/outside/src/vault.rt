// The block directory.
ghost use Rattle.std.specs.Prelude.{◌≡◌, ◌⊎◌, ◌≤◌, List, ℕ, true, false, length, IfOk, IfSome, OnOk, OnErr};
ghost use Rattle.std.specs.declared.option.Option.{Option};
ghost use Rattle.outside.specs.Causes.{GetHasCause};
ghost use Rattle.outside.specs.Trace.{Call, got, put, removed, adds};
ghost use Rattle.outside.specs.View.{at_of, bytes_of};

use crate::FileName;
use std::alloc::{AllocError, AllocFailed, Global};

/// How a call on the directory or the local record fails: want of the program's memory, or a fault of the outside.
#[derive(Clone, Copy, Debug, PartialEq, Eq)]
pub enum GetFail {
    Memory,
    Failed,
}

impl From<AllocError> for GetFail {
    ghost use Rattle.outside.specs.declared.vault.GetFail.TheVariants.{Memory};

    ghost from_gives = { λ _ e. e ≡ Memory };

    fn from(_: AllocError) -> Self {
        GetFail::Memory
    }
}

impl<T: Drop> From<AllocFailed<T>> for GetFail {
    ghost use Rattle.outside.specs.declared.vault.GetFail.TheVariants.{Memory};

    ghost from_gives = { λ _ e. e ≡ Memory };

    fn from(_: AllocFailed<T>) -> Self {
        GetFail::Memory
    }
}

/// A directory of files. Whatever it gives is allowed, and any call may fail.
pub trait Vault {
    /// The calls since the directory was empty, the newest first, where they are told.
    ghost trace: { Self → Option (List Call) };

    /// How often a call failed.
    ghost faults: { Self → ℕ };

    /// The file's bytes, at most `max` of them, or None where it isn't there.
    fn get(
        &mut self,
        alloc: Global,
        name: &FileName,
        max: usize,
    ) -> Result<Option<Vec<u8>>, GetFail>
        ensures bound { IfOk result (λ answer. IfSome answer (λ bytes. length bytes.items ≤ max)) }
        ensures ok { IfOk result (λ answer. trace self.new ≡ adds (trace self.old) (got (at_of name.now) max (bytes_of answer))) }
        ensures err { OnErr result (trace self.new ≡ trace self.old) }
        ensures cause { GetHasCause (faults self.old) (faults self.new) result };

    /// Gives the file these bytes.
    fn put(&mut self, alloc: Global, name: &FileName, bytes: &[u8]) -> Result<(), GetFail>
        ensures ok { OnOk result (trace self.new ≡ adds (trace self.old) (put (at_of name.now) bytes.now true)) }
        ensures err { OnErr result ((trace self.new ≡ trace self.old)
            ⊎ (trace self.new ≡ adds (trace self.old) (put (at_of name.now) bytes.now false))) }
        ensures cause { GetHasCause (faults self.old) (faults self.new) result };

    /// Removes the file; that it isn't there is no error.
    fn remove(&mut self, alloc: Global, name: &FileName) -> Result<(), GetFail>
        ensures ok { OnOk result (trace self.new ≡ adds (trace self.old) (removed (at_of name.now) true)) }
        ensures err { OnErr result ((trace self.new ≡ trace self.old)
            ⊎ (trace self.new ≡ adds (trace self.old) (removed (at_of name.now) false))) }
        ensures cause { GetHasCause (faults self.old) (faults self.new) result };
}
