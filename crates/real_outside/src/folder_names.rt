// The names of all files below a folder.
ghost use Rattle.std.specs.Prelude.{◌≤◌, IfOk, vec_len};

use crate::error::FolderError;
use crate::files::{check_no_link, if_there};
use outside::{ByteLine, MAX_NAMES};
use std::alloc::{AllocError, Global};
use std::fs::{self, DirEntry, Files};
use std::io::{self, ErrorKind};
use std::path::Path;

/// The names of all files below the folder at this path, joined by `/`. What is neither a file nor a folder counts as a file, and no link is
/// followed. Where they can't be told, the reason is, with the folder that it is about.
pub fn names_below<R: Files + Alloc + Clone + Eprint + Drop>(
    files: &R,
    alloc: Global,
    directory: &str,
) -> Result<Vec<ByteLine>, FolderError>
    ensures { IfOk result (λ names. vec_len names ≤ MAX_NAMES) }
{
    let mut found = Found {
        names: Vec::new(alloc),
        folders: Vec::new(alloc),
    };
    let mut folder = String::new(alloc);
    for _ in 0..MAX_NAMES {
        if let Err(error) = found.look_in(files, alloc, directory, &folder) {
            return Err(untold(files, directory, &folder, error));
        }
        folder = match found.folders.pop() {
            Some(folder) => folder,
            None => return Ok(found.names),
        };
    }
    Err(untold(files, directory, "", too_many()))
}

/// Tells on standard error why the names in a folder below the directory can't be told, where that is no want of memory.
pub fn untold<R: Eprint>(
    files: &R,
    directory: &str,
    folder: &str,
    error: FolderError,
) -> FolderError {
    if let FolderError::Io(error) = &error {
        let _ = if folder.is_empty() {
            eprintln!(files; "cryfs: {directory:?}: {error}")
        } else {
            eprintln!(files; "cryfs: {folder:?} in {directory:?}: {error}")
        };
    }
    error
}

/// What was found so far: files, and folders that are still to be looked at, each by its name below the directory.
#[derive(Drop)]
struct Found {
    names: Vec<ByteLine>,
    folders: Vec<String>,
}

impl Found {
    /// Finds what is in this folder, itself named below the directory. That it is gone by now is no error.
    fn look_in<R: Files + Alloc + Clone + Drop>(
        &mut self,
        files: &R,
        alloc: Global,
        directory: &str,
        folder: &str,
    ) -> Result<(), FolderError>
        requires { vec_len self.old.names ≤ MAX_NAMES }
        ensures { vec_len self.new.names ≤ MAX_NAMES }
    {
        let path = joined(alloc, directory, folder)?;
        if !folder.is_empty() {
            check_no_link(files, Path::new(&path))?;
        }
        let entries = match if_there(fs::read_dir(files, path.as_str())) {
            Ok(Some(entries)) => entries,
            Ok(None) => return Ok(()),
            Err(error) => return Err(read_error(error)),
        };
        for entry in entries {
            match entry {
                Ok(entry) => self.add(alloc, folder, &entry)?,
                Err(error) => return Err(read_error(error)),
            }
        }
        Ok(())
    }

    /// Adds an entry of this folder, where it isn't gone by now.
    fn add<R: Files + Alloc>(
        &mut self,
        alloc: Global,
        folder: &str,
        entry: &DirEntry<R, R::A>,
    ) -> Result<(), FolderError>
        requires { vec_len self.old.names ≤ MAX_NAMES }
        ensures { vec_len self.new.names ≤ MAX_NAMES }
    {
        let name = joined(alloc, folder, entry.file_name())?;
        let Some(found) = if_there(entry.metadata())? else {
            return Ok(());
        };
        if self.names.len() == MAX_NAMES || self.folders.len() == MAX_NAMES {
            return Err(too_many());
        }
        if found.is_dir() {
            self.folders.push(name)?;
        } else {
            self.names.push(ByteLine::new(name.into_bytes()))?;
        }
        Ok(())
    }
}

/// The path or name of what is in a folder. Where one of the two is empty, it is the other.
fn joined(alloc: Global, folder: &str, name: &str) -> Result<String, AllocError> {
    if folder.is_empty() {
        String::from_str(alloc, name)
    } else if name.is_empty() {
        String::from_str(alloc, folder)
    } else {
        format!(in alloc; "{folder}/{name}")
    }
}

/// Why a folder's entries can't be read.
fn read_error(error: io::Error) -> FolderError {
    match error.kind() {
        ErrorKind::OutOfMemory => FolderError::Memory(AllocError),
        ErrorKind::InvalidFilename => {
            FolderError::Io(io::Error::other("a file in it has a name that is no text"))
        }
        _ => FolderError::Io(error),
    }
}

fn too_many() -> FolderError {
    FolderError::Io(io::Error::other("more files or folders lie in it than can be listed"))
}
