// Why a configuration isn't opened.
ghost use Rattle.std.specs.Prelude.{◌≡◌};

use block_id::Memory;

/// Why a configuration isn't opened.
#[derive(Clone, Copy, Debug, PartialEq, Eq)]
pub enum ConfigError {
    /// Memory was refused.
    Memory,
    /// The file hasn't the outer form.
    Form,
    /// The outer part doesn't open under the password.
    Locked,
    /// The outer part opens, and what it holds hasn't the format.
    Inner,
}

impl From<Memory> for ConfigError {
    ghost use Rattle.config_file.specs.declared.error.ConfigError.TheVariants.{Memory};

    ghost from_gives = { λ _ e. e ≡ Memory };

    fn from(_: Memory) -> Self {
        ConfigError::Memory
    }
}
