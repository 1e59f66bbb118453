// Output, piece by piece.
ghost use Rattle.std.specs.Prelude.{◌≡◌, ◌≤◌, ◌<◌, List, ℕ, length, take, IfOk, OnOk, OnErr};
ghost use Rattle.std.specs.declared.option.Option.{Option};
ghost use Rattle.outside.specs.Causes.{RoseBy};
ghost use Rattle.outside.specs.Streams.{appends};

use block_id::Failed;

/// Output.
pub trait Sink {
    /// The bytes written, where they are told.
    ghost written: { Self → Option (List ℕ) };

    /// How often a call failed.
    ghost faults: { Self → ℕ };

    /// Takes bytes from the front of `piece` and says how many: at least one of a piece that isn't empty.
    fn write(&mut self, piece: &[u8]) -> Result<usize, Failed>
        ensures bound { IfOk result (λ n. n ≤ length piece.now) }
        ensures some { IfOk result (λ n. 0 < length piece.now → 0 < n) }
        ensures ok { IfOk result (λ n. written self.new ≡ appends (written self.old) (take n piece.now)) }
        ensures err { OnErr result (written self.new ≡ written self.old) }
        ensures grows { faults self.old ≤ faults self.new }
        ensures cause { OnErr result (RoseBy 1 (faults self.old) (faults self.new)) }
        ensures quiet { OnOk result (faults self.new ≡ faults self.old) };
}
