// The folder of the local record as a run holds it.
use crate::files::{flush_name, if_there, make_new_folder, numbers, open_or_create};
use crate::lock::Lock;
use std::fs::{self, Files, OpenFile};
use std::io;
use std::path::Path;

/// The lock of the state folder and the folder, open, once a run holds them.
#[derive(Drop)]
pub struct StateFolder<R: Files> {
    lock: Option<R::File>,
    folder: Option<R::File>,
    /// The numbers of the folder that is held.
    held: Option<(u64, u64)>,
    was_missing: bool,
    /// Whether the folder's own name is flushed.
    is_named: bool,
}

impl<R: Files + Drop> StateFolder<R>
where
    R::File: Lock,
{
    /// A folder that isn't held yet.
    pub fn new() -> StateFolder<R> {
        StateFolder {
            lock: None,
            folder: None,
            held: None,
            was_missing: false,
            is_named: false,
        }
    }

    /// Whether no folder is there before the run holds it.
    pub fn is_missing(&mut self, files: &R, folder: Path<'_>) -> io::Result<bool> {
        if self.held.is_some() || if_there(fs::metadata(files, folder))?.is_some() {
            return Ok(false);
        }
        self.was_missing = true;
        Ok(true)
    }

    /// Takes the lock of the file at this path in the folder, and keeps the folder open. It fails where another run has the lock. The
    /// folder is made where it is missing: so it is made by the first save of a run that found none, and never anew.
    pub fn hold(&mut self, files: &R, folder: Path<'_>, lock: Path<'_>) -> io::Result<()> {
        if self.held.is_some() {
            return Ok(());
        }
        self.make_missing(files, folder)?;
        let lock = open_or_create(files, lock)?;
        lock.take_lock()?;
        let folder = fs::open(files, folder)?;
        self.held = Some(numbers(&folder.metadata()?));
        self.lock = Some(lock);
        self.folder = Some(folder);
        Ok(())
    }

    /// Makes the folder where it is missing. A run that found none uses none that another run has made since.
    fn make_missing(&mut self, files: &R, folder: Path<'_>) -> io::Result<()> {
        match if_there(fs::metadata(files, folder))? {
            None => make_new_folder(files, folder.as_os_str())?,
            Some(_) if self.was_missing => return Err(io::Error::other(
                "another run made the folder",
            )),
            Some(_) => {}
        }
        self.was_missing = false;
        Ok(())
    }

    /// Fails if another folder or none lies at the path of the one that is held: its drive was taken away, or it was moved.
    pub fn check_held(&self, files: &R, folder: Path<'_>) -> io::Result<()> {
        if Some(numbers(&fs::metadata(files, folder)?)) == self.held {
            Ok(())
        } else {
            Err(io::Error::other("the folder is another one now"))
        }
    }

    /// Flushes the folder's own name, once in a run: the run that made it may have been stopped before it did.
    pub fn flush_name(&mut self, files: &R, folder: Path<'_>) -> io::Result<()> {
        if !self.is_named {
            flush_name(files, folder)?;
            self.is_named = true;
        }
        Ok(())
    }
}
