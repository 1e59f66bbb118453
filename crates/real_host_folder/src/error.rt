// Why a call on a folder of the host fails.
use block_id::Memory;
use std::alloc::{AllocError, AllocFailed};
use std::io::{self, ErrorKind};

/// Want of memory, an error of the system, or what was found where something else is needed.
#[derive(Drop)]
pub enum HostError {
    Memory,
    Io(io::Error),
    /// What is wrong, to stand after the path.
    Wrong(&'static str),
    /// What is neither file, folder nor link.
    NoRow,
    /// Something wrong that was told already.
    Told,
}

impl From<AllocError> for HostError {
    fn from(_error: AllocError) -> HostError {
        HostError::Memory
    }
}

impl<T: Drop> From<AllocFailed<T>> for HostError {
    fn from(_error: AllocFailed<T>) -> HostError {
        HostError::Memory
    }
}

impl From<Memory> for HostError {
    fn from(_error: Memory) -> HostError {
        HostError::Memory
    }
}

impl From<io::Error> for HostError {
    fn from(error: io::Error) -> HostError {
        if error.kind() == ErrorKind::OutOfMemory {
            HostError::Memory
        } else {
            HostError::Io(error)
        }
    }
}
