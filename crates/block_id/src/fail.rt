// Why a call fails.
ghost use Rattle.std.specs.Prelude.{◌≡◌};

use crate::BlockId;
use std::alloc::{AllocError, AllocFailed};
use std::fmt::{self, Debug, Formatter};

/// Memory was refused.
#[derive(Clone, Copy, Debug, PartialEq, Eq)]
pub struct Memory;

/// A call on the outside failed.
#[derive(Clone, Copy, Debug, PartialEq, Eq)]
pub struct Failed;

/// What is wrong with a block: the reasons 1 to 11, in this order.
#[derive(Clone, Copy, PartialEq, Eq)]
pub enum Why {
    /// The file isn't there.
    Missing,
    /// The file hasn't the block size.
    BadLength,
    /// The file begins with other bytes than a block file.
    BadPrefix,
    /// The file's seal doesn't open.
    NotOpened,
    /// The record has another form, no client or no version.
    BadRecord,
    /// The record is that of another block.
    WrongId(BlockId),
    /// The record is that of another client.
    ForeignClient(u32),
    /// The record's version is below the known one.
    OldVersion { known: u64, found: u64 },
    /// The record's version is above the known one.
    AheadVersion { known: u64, found: u64 },
    /// The payload isn't the node, blob or directory that the tree needs.
    Structure,
    /// The file has a format that isn't taken any more.
    OldFormat,
}

/// How a call on stored blocks fails.
#[derive(Clone, Copy, PartialEq, Eq)]
pub enum Fail {
    Memory,
    Fault,
    Violation(Why),
}

impl Debug for Fail {
    fn fmt<W: fmt::Write>(&self, f: &mut Formatter<W>) -> fmt::Result {
        f.write_str(match self {
            Fail::Memory => "Memory",
            Fail::Fault => "Fault",
            Fail::Violation(_) => "Violation",
        })
    }
}

impl From<AllocError> for Memory {
    fn from(_: AllocError) -> Self {
        Memory
    }
}

impl<T: Drop> From<AllocFailed<T>> for Memory {
    fn from(_: AllocFailed<T>) -> Self {
        Memory
    }
}

impl From<Memory> for Fail {
    ghost use Rattle.block_id.specs.declared.fail.Fail.TheVariants.{Memory};

    ghost from_gives = { λ _ e. e ≡ Memory };

    fn from(_: Memory) -> Self {
        Fail::Memory
    }
}

impl From<AllocError> for Fail {
    ghost use Rattle.block_id.specs.declared.fail.Fail.TheVariants.{Memory};

    ghost from_gives = { λ _ e. e ≡ Memory };

    fn from(_: AllocError) -> Self {
        Fail::Memory
    }
}

impl<T: Drop> From<AllocFailed<T>> for Fail {
    ghost use Rattle.block_id.specs.declared.fail.Fail.TheVariants.{Memory};

    ghost from_gives = { λ _ e. e ≡ Memory };

    fn from(_: AllocFailed<T>) -> Self {
        Fail::Memory
    }
}
