// Why a line makes no command, and a text no path.
ghost use Rattle.std.specs.Prelude.{◌≡◌};

use block_id::Memory;
use fs_model::FsError;
use std::alloc::{AllocError, AllocFailed};

/// Why a line makes no command.
#[derive(Clone, Copy, PartialEq, Eq)]
pub enum LineError {
    /// Memory was refused.
    Memory,
    /// The line is refused: `BadLine`, or `Invalid` or `NameTooLong` for a path or a target.
    Bad(FsError),
}

/// A line of no form, or with a word of another form.
pub const BAD_LINE: LineError = LineError::Bad(FsError::BadLine);

impl From<Memory> for LineError {
    ghost use Rattle.script_text.specs.declared.error.LineError.TheVariants.{Memory};

    ghost from_gives = { λ _ e. e ≡ Memory };

    fn from(_: Memory) -> Self {
        LineError::Memory
    }
}

impl From<AllocError> for LineError {
    ghost use Rattle.script_text.specs.declared.error.LineError.TheVariants.{Memory};

    ghost from_gives = { λ _ e. e ≡ Memory };

    fn from(_: AllocError) -> Self {
        LineError::Memory
    }
}

impl<T: Drop> From<AllocFailed<T>> for LineError {
    ghost use Rattle.script_text.specs.declared.error.LineError.TheVariants.{Memory};

    ghost from_gives = { λ _ e. e ≡ Memory };

    fn from(_: AllocFailed<T>) -> Self {
        LineError::Memory
    }
}

/// Why a text is no path.
#[derive(Clone, Copy, PartialEq, Eq)]
pub enum PathError {
    /// It doesn't begin with `/`, has a zero byte, or has an empty name and isn't `/` alone.
    Form,
    /// A name is `.` or `..`.
    Dot,
    /// A name has more than 255 bytes.
    LongName,
    /// The text has more than 4,096 bytes.
    LongPath,
    /// Memory was refused.
    Memory,
}

impl From<Memory> for PathError {
    ghost use Rattle.script_text.specs.declared.error.PathError.TheVariants.{Memory};

    ghost from_gives = { λ _ e. e ≡ Memory };

    fn from(_: Memory) -> Self {
        PathError::Memory
    }
}

impl From<AllocError> for PathError {
    ghost use Rattle.script_text.specs.declared.error.PathError.TheVariants.{Memory};

    ghost from_gives = { λ _ e. e ≡ Memory };

    fn from(_: AllocError) -> Self {
        PathError::Memory
    }
}

impl<T: Drop> From<AllocFailed<T>> for PathError {
    ghost use Rattle.script_text.specs.declared.error.PathError.TheVariants.{Memory};

    ghost from_gives = { λ _ e. e ≡ Memory };

    fn from(_: AllocFailed<T>) -> Self {
        PathError::Memory
    }
}
