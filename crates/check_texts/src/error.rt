// Why a text isn't printed whole.
ghost use Rattle.std.specs.Prelude.{◌≡◌};

use block_id::{Failed, Memory};

/// Why a text isn't printed whole.
#[derive(Clone, Copy, PartialEq, Eq)]
pub enum PrintError {
    /// Memory was refused.
    Memory,
    /// The sink failed.
    Failed,
}

impl From<Memory> for PrintError {
    ghost use Rattle.check_texts.specs.declared.error.PrintError.TheVariants.{Memory};

    ghost from_gives = { λ _ e. e ≡ Memory };

    fn from(_: Memory) -> Self {
        PrintError::Memory
    }
}

impl From<Failed> for PrintError {
    ghost use Rattle.check_texts.specs.declared.error.PrintError.TheVariants.{Failed};

    ghost from_gives = { λ _ e. e ≡ Failed };

    fn from(_: Failed) -> Self {
        PrintError::Failed
    }
}
