// What holds of records of several clients as such.
ghost use Rattle.std.specs.Prelude.{◌≡◌, ℕ, List, length};
ghost use Rattle.std.specs.declared.option.Option.TheVariants.{Some};
ghost use Rattle.byte_fields.specs.Fields.{IsBytes};
ghost use Rattle.local_state.specs.Record.{PlainState, ListEntry, record_bytes};
ghost use Rattle.local_state.specs.Versions.{Version};
ghost use Rattle.shared_records.specs.Scan.{split_at};
ghost use Rattle.shared_records.specs.Shared.{shared_bytes, HasShared, IsShared};

/// What is recognised is such a record, and it splits behind its front.
pub fn splits_are_shared()
    ensures { (bytes : List ℕ) (n : ℕ) → IsBytes bytes → split_at bytes ≡ Some n
        → (s : PlainState) × (list : List ListEntry) × (vs : List Version) × IsShared s list vs bytes × (n ≡ length (record_bytes s list)) }
{}

/// Each such record is recognised.
pub fn shared_splits()
    ensures { (s : PlainState) (list : List ListEntry) (vs : List Version) → HasShared s list vs → split_at (shared_bytes s list vs) ≡ Some (length (record_bytes s list)) }
{}

/// It has one state, one list and the same versions of others.
pub fn one_shared()
    ensures { (s t : PlainState) (k l : List ListEntry) (vs ws : List Version) (bytes : List ℕ) → IsShared s k vs bytes → IsShared t l ws bytes → (s ≡ t) × (k ≡ l) × (vs ≡ ws) }
{}
