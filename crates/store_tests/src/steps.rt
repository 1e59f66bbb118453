// What a step of a text answers, beside what the text says.

use std::test::Fail;

/// A step was answered as the text says.
pub(crate) fn is_answered(step: &str, told: &str, wanted: &str) -> Result<(), Fail> {
    if told == wanted {
        Ok(())
    } else {
        Err(Fail::new(format_args!("{step}: {told:?} and not {wanted:?}")))
    }
}
