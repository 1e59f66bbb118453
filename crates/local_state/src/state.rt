// The state that a client keeps, and the digest of its key.
ghost use Rattle.std.specs.Prelude.{◌≡◌, ◌++◌};
ghost use Rattle.sha2.specs.Sha256.{sha256};

use crate::known::Known;
use block_id::{BlockId, Memory};
use sha2::{Digest, Sha256};
use std::alloc::{AllocError, AllocFailed};

/// What a client keeps of one file system.
#[derive(Drop)]
pub struct State {
    /// Whether a violation was seen.
    pub marked: bool,
    /// The least format of blocks' files that are taken, 1 or 2.
    pub least: u8,
    pub fs_id: BlockId,
    pub key_salt: [u8; 32],
    pub key_digest: [u8; 32],
    /// The own client, from 1.
    pub client: u32,
    pub known: Known,
}

/// The forms of a record. Both are read, and the newer one is written.
#[derive(Clone, Copy, PartialEq, Eq)]
pub enum Form {
    /// Form 1, which doesn't say the least format of blocks' files.
    Older,
    /// Form 2.
    Newer,
}

/// Why a record wasn't read.
#[derive(Clone, Copy, Debug, PartialEq, Eq)]
pub enum StateError {
    /// Memory was refused.
    Memory,
    /// No state and list have these bytes.
    BadState,
}

impl From<Memory> for StateError {
    ghost use Rattle.local_state.specs.declared.state.StateError.TheVariants.{Memory};

    ghost from_gives = { λ _ e. e ≡ Memory };

    fn from(_: Memory) -> Self {
        StateError::Memory
    }
}

impl From<AllocError> for StateError {
    ghost use Rattle.local_state.specs.declared.state.StateError.TheVariants.{Memory};

    ghost from_gives = { λ _ e. e ≡ Memory };

    fn from(_: AllocError) -> Self {
        StateError::Memory
    }
}

impl<T: Drop> From<AllocFailed<T>> for StateError {
    ghost use Rattle.local_state.specs.declared.state.StateError.TheVariants.{Memory};

    ghost from_gives = { λ _ e. e ≡ Memory };

    fn from(_: AllocFailed<T>) -> Self {
        StateError::Memory
    }
}

/// SHA-256 of the salt followed by the key.
pub fn key_digest(salt: &[u8; 32], key: &[u8; 32]) -> [u8; 32]
    ensures { result ≡ sha256 (salt.now ++ key.now) }
{
    let mut hasher = Sha256::new();
    hasher.update(salt);
    hasher.update(key);
    hasher.finalize()
}
