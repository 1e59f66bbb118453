// Why a record of a new client is sound over all calls there ever were.
ghost use Rattle.std.specs.Prelude.{◌≡◌, ℕ, List, take};
ghost use Rattle.block_id.specs.Formats.{magic};
ghost use Rattle.outside.specs.Trace.{Call};
ghost use Rattle.integrity_store.specs.block_versions.Held.{Held};
ghost use Rattle.integrity_store.specs.block_versions.Soundness.{SoundAt};
ghost use Rattle.integrity_store.specs.sealed_store.BlockFiles.{OpensAlike};
ghost use Rattle.anew.specs.Begun.{BegunAnew, IsNewClient};

/// Where a client has a new number and wrote each block that it knows anew, its record is sound over all calls there ever were, whatever
/// others put before. Nothing is said of what the directory gave.
pub fn sound_anew()
    ensures { (h : Held) (file : List ℕ) (before trace : List Call) → OpensAlike h.opens → (take 14 file ≡ magic → ⊥)
        → IsNewClient h.opens h.size h.state.client before → BegunAnew h file before trace → SoundAt h trace }
{}
