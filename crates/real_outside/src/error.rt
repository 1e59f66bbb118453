// Why a call on a real folder fails, and how it is counted.
ghost use Rattle.std.specs.Prelude.{◌≡◌, IfOk};
ghost use Rattle.std.specs.declared.result.Result.TheVariants.{Ok};
ghost use Rattle.outside.specs.Causes.{GetHasCause};
ghost use Rattle.real_outside.specs.Adapters.{counted};

use outside::GetFail;
use std::alloc::{AllocError, AllocFailed};
use std::io;

/// Want of the program's memory, or an error of the system. That the system itself has no memory is one of the latter.
#[derive(Drop)]
pub enum FolderError {
    Memory(AllocError),
    Io(io::Error),
}

impl From<AllocError> for FolderError {
    fn from(error: AllocError) -> FolderError {
        FolderError::Memory(error)
    }
}

impl<T: Drop> From<AllocFailed<T>> for FolderError {
    fn from(error: AllocFailed<T>) -> FolderError {
        FolderError::Memory(AllocError::from(error))
    }
}

impl From<io::Error> for FolderError {
    fn from(error: io::Error) -> FolderError {
        FolderError::Io(error)
    }
}

/// The answer as a call on the outside gives it, and one fault more after an error of the system.
pub fn count<T: Drop>(faults: &mut u64, answer: Result<T, FolderError>) -> Result<T, GetFail>
    ensures value { IfOk result (λ x. answer ≡ Ok x) }
    ensures faults { faults.new ≡ counted result faults.old }
    ensures cause { GetHasCause faults.old faults.new result }
{
    match answer {
        Ok(value) => Ok(value),
        Err(FolderError::Memory(_)) => Err(GetFail::Memory),
        Err(FolderError::Io(_)) => {
            *faults = faults.saturating_add(1);
            Err(GetFail::Failed)
        }
    }
}
