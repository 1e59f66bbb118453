// What holds of records and of fronts as such.
ghost use Rattle.std.specs.Prelude.{◌≡◌, ◌≤◌, ℕ, ◌+◌, List, Some};
ghost use Rattle.byte_fields.specs.Fields.{IsBytes};
ghost use Rattle.sealed_store.specs.BlockFiles.{SeenFile, IsWhole, front_seen};
ghost use Rattle.block_versions.specs.declared.block_record.TheConstants.{HEAD_LEN, OVERHEAD};
ghost use Rattle.block_versions.specs.BlockRecords.{Record, FitsFile, record_of, text_of};
ghost use Rattle.block_versions.specs.Verdicts.{front_verdict, judged};

/// What is written as a record is read as that record, and what is read as one was written so.
pub fn records_as_texts()
    ensures again { (size : ℕ) (r : Record) → FitsFile size r → record_of size (text_of r) ≡ Some r }
    ensures took { (size : ℕ) (bytes : List ℕ) (r : Record) → IsBytes bytes → record_of size bytes ≡ Some r → FitsFile size r × (bytes ≡ text_of r) }
{}

/// A front that is no shorter than the payload is the whole, as it is seen and as it is judged.
pub fn fronts_as_wholes()
    ensures seen { (size most : ℕ) (whole : SeenFile) → IsWhole size whole → size ≤ OVERHEAD + most → front_seen (HEAD_LEN + most) whole ≡ whole }
    ensures judged { (size most : ℕ) (id : List ℕ) (client known : ℕ) (whole : SeenFile) → size ≤ OVERHEAD + most
        → front_verdict most (judged size id client known whole) ≡ judged size id client known whole }
{}
