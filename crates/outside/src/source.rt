// Input, piece by piece.
ghost use Rattle.std.specs.Prelude.{◌≡◌, ◌≤◌, ◌<◌, List, ℕ, length, take, IfOk, OnOk, OnErr};
ghost use Rattle.std.specs.declared.option.Option.{Option};
ghost use Rattle.outside.specs.Causes.{RoseBy};
ghost use Rattle.outside.specs.Streams.{WereTaken, Ends};

use block_id::Failed;

/// Input.
pub trait Source {
    /// The bytes that are left, where they are told.
    ghost rest: { Self → Option (List ℕ) };

    /// How often a call failed.
    ghost faults: { Self → ℕ };

    /// One read that answered ok led from the first state to the second, and took these bytes.
    ghost took: { Self → Self → List ℕ → Type 0 };

    /// Gives the next bytes into the front of `piece` and says how many. Ok(0) for a piece that isn't empty is
    /// the end of input.
    fn read(&mut self, piece: &mut [u8]) -> Result<usize, Failed>
        ensures bound { IfOk result (λ n. n ≤ length piece.old) }
        ensures ok { IfOk result (λ n. WereTaken (rest self.old) (rest self.new) (take n piece.new)) }
        ensures took { IfOk result (λ n. took self.old self.new (take n piece.new)) }
        ensures end { IfOk result (λ n. n ≡ 0 → 0 < length piece.old → Ends (rest self.old)) }
        ensures err { OnErr result (rest self.new ≡ rest self.old) }
        ensures grows { faults self.old ≤ faults self.new }
        ensures cause { OnErr result (RoseBy 1 (faults self.old) (faults self.new)) }
        ensures quiet { OnOk result (faults self.new ≡ faults self.old) };
}
