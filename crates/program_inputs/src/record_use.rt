// Whether words need the local record.
ghost use Rattle.std.specs.Prelude.{◌≡◌, true, map, IfOk, OnErr};
ghost use Rattle.std.specs.String.{string_bytes};
ghost use Rattle.program_words.specs.Forms.{form_of, takes_memory};
ghost use Rattle.program_inputs.specs.RecordUse.{uses_record};

use outside::Memory;
use program_words::{Form, read_form};
use std::alloc::Global;

/// Whether the program's run with these words may call the local record. Where it doesn't, it gives it back as it got it (the clauses
/// of `Did` at these forms). Memory comes only where the first word is
/// `create`, or asks for a copy and a path follows.
pub(crate) fn uses_record(alloc: Global, words: &[String]) -> Result<bool, Memory>
    ensures uses { IfOk result (λ uses. uses ≡ uses_record (form_of (map string_bytes words.now))) }
    ensures memory { OnErr result (takes_memory (map string_bytes words.now) ≡ true) }
{
    match read_form(alloc, words)? {
        None | Some(Form::Trial | Form::TrialGenerate(_) | Form::Look) => Ok(false),
        Some(_) => Ok(true),
    }
}
