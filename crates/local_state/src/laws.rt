// What holds of records as such.
ghost use Rattle.std.specs.Prelude.{◌≡◌, ℕ, List, slice_index, slice_set};
ghost use Rattle.local_state.specs.Record.{PlainState, ListEntry, flag, with_mark, IsRecord};

/// A record has one state and one list.
pub fn one_reading()
    ensures { (s t : PlainState) (k l : List ListEntry) (bytes : List ℕ) → IsRecord s k bytes → IsRecord t l bytes → (s ≡ t) × (k ≡ l) }
{}

/// The mark is the byte at place 19: with that set to 1, a record is that of the same state, marked.
pub fn mark_stands_at_19()
    ensures place { (s : PlainState) (list : List ListEntry) (bytes : List ℕ) → IsRecord s list bytes → slice_index bytes 19 ≡ flag s.marked }
    ensures marked { (s : PlainState) (list : List ListEntry) (bytes : List ℕ) → IsRecord s list bytes → IsRecord (with_mark s) list (slice_set bytes 19 1) }
{}
