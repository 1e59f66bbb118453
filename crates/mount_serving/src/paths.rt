// Paths of names in directories that the kernel knows.

use crate::nodes::{REMOVED_NAME, ROOT};
use crate::state::State;
use fs_model::{MAX_NAME, Name, Path};
use fuse_messages::ErrorNumber;
use std::alloc::Global;

/// The same bytes.
pub(crate) fn copy_of(alloc: Global, bytes: &[u8]) -> Result<Vec<u8>, ErrorNumber> {
    match Vec::from_slice(alloc, bytes) {
        Ok(copy) => Ok(copy),
        Err(_) => Err(ErrorNumber::NoMemory),
    }
}

/// Whether it is the name of the directory of removed files.
pub(crate) fn is_own(parent: u64, name: &[u8]) -> bool {
    parent == ROOT && name == REMOVED_NAME.as_slice()
}

/// The path of a name in a directory. The name of the directory of removed files isn't permitted.
pub(crate) fn child_path(
    alloc: Global,
    state: &State,
    parent: u64,
    name: &[u8],
) -> Result<Path, ErrorNumber> {
    if is_own(parent, name) {
        return Err(ErrorNumber::NotPermitted);
    }
    if name.len() > MAX_NAME {
        return Err(ErrorNumber::NameTooLong);
    }
    let mut path = state.nodes.path(alloc, parent)?;
    let Some(name) = Name::new(copy_of(alloc, name)?) else {
        return Err(ErrorNumber::Invalid);
    };
    path.push(name)?;
    Ok(path)
}
