// Lengths of files.
ghost use Rattle.std.specs.Prelude.{◌≡◌};
ghost use Rattle.fs_model.specs.Step as step;

use crate::{MAX_FILE, MAX_GROWTH};

/// A file of the old length may not get this length.
pub fn is_too_long(old: u64, new: u64) -> bool
    ensures { result ≡ step.is_too_long old new }
{
    new > MAX_FILE || new.saturating_sub(old) > MAX_GROWTH
}
