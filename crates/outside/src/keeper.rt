// The local record.
ghost use Rattle.std.specs.Prelude.{◌≡◌, ◌⊎◌, ◌≤◌, List, ℕ, length, IfOk, OnOk, OnErr};
ghost use Rattle.std.specs.declared.option.Option.{Option};
ghost use Rattle.std.specs.declared.option.Option.TheVariants.{Some};
ghost use Rattle.outside.specs.Causes.{GetHasCause, RoseBy};
ghost use Rattle.outside.specs.Plain.{IsPlain};
ghost use Rattle.outside.specs.View.{bytes_of};

use crate::GetFail;
use block_id::{Failed, Memory};
use std::alloc::Global;

/// The trusted local record. After a save that failed, the old or the new record is kept.
pub trait Keeper {
    /// What is kept: nothing, or a record.
    ghost kept: { Self → Option (List ℕ) };

    /// How long a record can be saved without memory being taken.
    ghost room: { Self → ℕ };

    /// How often a call failed.
    ghost faults: { Self → ℕ };

    /// Which bytes are kept as they are given. Of others a save says nothing.
    ghost takes: { List ℕ → Type 0 };

    /// What is kept.
    fn load(&mut self, alloc: Global) -> Result<Option<Vec<u8>>, GetFail>
        ensures ok { IfOk result (λ answer. bytes_of answer ≡ kept self.old) }
        ensures kept { kept self.new ≡ kept self.old }
        ensures room { room self.old ≤ room self.new }
        ensures cause { GetHasCause (faults self.old) (faults self.new) result };

    /// Takes the memory for records of up to `len` bytes. It is no call on the outside.
    fn prepare(&mut self, alloc: Global, len: usize) -> Result<(), Memory>
        ensures ok { OnOk result (len ≤ room self.new) }
        ensures kept { kept self.new ≡ kept self.old }
        ensures room { room self.old ≤ room self.new }
        ensures faults { faults self.new ≡ faults self.old };

    /// Keeps this record.
    fn save(&mut self, bytes: &[u8]) -> Result<(), Failed>
        requires { length bytes.now ≤ room self.old }
        ensures ok { OnOk result (takes bytes.now → kept self.new ≡ Some bytes.now) }
        ensures err { OnErr result (takes bytes.now → (kept self.new ≡ kept self.old) ⊎ (kept self.new ≡ Some bytes.now)) }
        ensures room { room self.old ≤ room self.new }
        ensures grows { faults self.old ≤ faults self.new }
        ensures cause { OnErr result (RoseBy 1 (faults self.old) (faults self.new)) }
        ensures quiet { OnOk result (faults self.new ≡ faults self.old) };

    /// All bytes are, but those that begin as a record of several clients.
    ghost takes_plain: { (bytes : List ℕ) → IsPlain bytes → takes bytes };
}

/// A local record that keeps each record as it is given.
pub trait WholeKeeper: Keeper {
    ghost takes_all: { (bytes : List ℕ) → Self.takes bytes };
}
