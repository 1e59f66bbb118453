// The names of all files in a block directory.
ghost use Rattle.std.specs.Prelude.{◌≡◌, ◌≤◌, List, ℕ, IfOk, IfSome, vec_len};
ghost use Rattle.std.specs.declared.option.Option.{Option};
ghost use Rattle.outside.specs.Causes.{GetHasCause};

use crate::{ByteLine, GetFail, Vault};
use std::alloc::Global;

/// The most names that a listing gives.
pub const MAX_NAMES: usize = 16777216;

/// A directory whose files can be listed. Whatever it lists is allowed, and the call may fail.
pub trait Listing: Vault {
    /// The names of all files below the directory, joined by `/`, where they are told.
    ghost names: { Self → Option (List (List ℕ)) };

    /// The names of all files below the directory. That they are more than `MAX_NAMES` is a fault, and so is a name that can't be
    /// told. It is no call of the trace.
    fn list(&mut self, alloc: Global) -> Result<Vec<ByteLine>, GetFail>
        ensures ok { IfOk result (λ lines. IfSome (names self.old) (λ told. lines.items ≡ told)) }
        ensures few { IfOk result (λ lines. vec_len lines ≤ MAX_NAMES) }
        ensures names { names self.new ≡ names self.old }
        ensures trace { Self.trace self.new ≡ Self.trace self.old }
        ensures cause { GetHasCause (Self.faults self.old) (Self.faults self.new) result };
}
