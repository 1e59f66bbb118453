// A real folder that a run holds, and the files in it.
ghost use Rattle.std.specs.Prelude.{◌≤◌, length, vec_len, IfOk, IfSome};

use crate::error::FolderError;
use crate::file_names::place;
use crate::files::{device_of, make_new_folder, open_folder};
use crate::folder_names::{names_below, untold};
use crate::folder_run::FolderRun;
use crate::lock::{Lock, lock_folder};
use crate::progress::Progress;
use crate::stored_file::{StoredFile, Written};
use outside::{ByteLine, FileName, MAX_NAMES};
use std::alloc::{AllocError, Global};
use std::fs::{self, Files, OpenFile};
use std::io;
use std::path::{Path, PathBuf};

/// The folder of a run, at the same path in each call, which fails where another folder or none lies there by now.
#[derive(Drop)]
pub struct HeldFolder<'a, R: Files> {
    files: R,
    run: &'a FolderRun,
    /// The folder, open, with its lock, where the directory took it.
    held: Option<R::File>,
    /// Says how many blocks were read, where that is to be told.
    progress: Option<Progress>,
}

impl<'a, R: Files> HeldFolder<'a, R>
where
    R::File: Lock,
{
    /// A folder that isn't held yet.
    pub fn new(files: R, run: &'a FolderRun) -> HeldFolder<'a, R> {
        HeldFolder {
            files,
            run,
            held: None,
            progress: None,
        }
    }

    /// Has it told how many blocks were read, of those that the record knows, where standard error is a terminal.
    pub fn watch(&mut self, rt: HostRuntime) {
        self.run.count_blocks();
        self.progress = Some(Progress::new(rt));
    }

    /// The file's bytes, at most `max` of them, or None where it isn't there.
    pub fn read(
        &mut self,
        alloc: Global,
        directory: &str,
        name: &FileName,
        max: usize,
    ) -> Result<Option<Vec<u8>>, FolderError>
        ensures { IfOk result (λ answer. IfSome answer (λ bytes. length bytes.items ≤ max)) }
    {
        self.hold(directory)?;
        let place = place(alloc, directory, name)?;
        self.device_of(&place, name)?;
        let found = place.read(&self.files, alloc, max)?;
        self.check_held(directory)?;
        self.count_read(name);
        Ok(found)
    }

    fn count_read(&mut self, name: &FileName) {
        if let (FileName::Block(_), Some(progress)) = (name, &mut self.progress) {
            progress.add(self.run.known_blocks());
        }
    }

    /// The names of all files below the folder, or none where it isn't there.
    pub fn names(&mut self, alloc: Global, directory: &str) -> Result<Vec<ByteLine>, FolderError>
    where
        R: Alloc + Clone + Eprint + Drop,
        ensures { IfOk result (λ names. vec_len names ≤ MAX_NAMES) }
    {
        match self.reach(directory) {
            Ok(true) => {}
            Ok(false) => return Ok(Vec::new(alloc)),
            Err(error) => return Err(untold(&self.files, directory, "", error)),
        }
        let names = names_below(&self.files, alloc, directory)?;
        match self.check_held(directory) {
            Ok(()) => Ok(names),
            Err(error) => Err(untold(&self.files, directory, "", FolderError::Io(error))),
        }
    }

    /// Holds the folder, and checks that it is the one that lies at its path; or says that none is there.
    fn reach(&mut self, directory: &str) -> Result<bool, FolderError> {
        self.hold(directory)?;
        self.check_held(directory)?;
        Ok(self.run.is_held())
    }

    /// Gives the file these bytes. The folder is made where it is missing.
    pub fn write(
        &mut self,
        alloc: Global,
        directory: &str,
        name: &FileName,
        bytes: &[u8],
    ) -> Result<(), FolderError> {
        let place = place(alloc, directory, name)?;
        self.hold_or_make(directory)?;
        self.check_held(directory)?;
        match name {
            FileName::Config => self.replace(alloc, &place, bytes),
            FileName::Block(_) => self.overwrite(place, bytes),
        }
    }

    /// Removes the file where it is there.
    pub fn delete(
        &mut self,
        alloc: Global,
        directory: &str,
        name: &FileName,
    ) -> Result<(), FolderError> {
        self.hold(directory)?;
        self.check_held(directory)?;
        let place = place(alloc, directory, name)?;
        let device = self.device_of(&place, name)?;
        place.remove(&self.files)?;
        match name {
            FileName::Config => place.flush_folder(&self.files).map_err(FolderError::Io),
            FileName::Block(_) => self
                .leave(place.folder, device)
                .map_err(FolderError::Memory),
        }
    }

    /// After a block's file was removed: removes its folder, which lies on this device, where that was the last one in it. The folder is
    /// remembered, or left to the helper. The flush of the block folder tells of both.
    fn leave(&self, folder: PathBuf, device: Option<u64>) -> Result<(), AllocError> {
        let _ = fs::remove_dir(&self.files, folder.as_path());
        let is_here = device.is_none() || device == self.run.device();
        let is_left = is_here && self.run.is_helped();
        self.run.count(is_left);
        if is_left {
            return Ok(());
        }
        self.run.remember(folder)
    }

    /// The device of the folder of a block's file, where it is there. Fails where it is a link. The block folder itself may be one, and
    /// isn't looked at.
    fn device_of(&self, place: &StoredFile, name: &FileName) -> io::Result<Option<u64>> {
        match name {
            FileName::Config => Ok(None),
            FileName::Block(_) => device_of(&self.files, place.folder.as_path()),
        }
    }

    fn replace(&self, alloc: Global, place: &StoredFile, bytes: &[u8]) -> Result<(), FolderError> {
        let beside = place.beside(alloc, self.run.ending())?;
        place
            .replace(&self.files, beside.as_path(), bytes)
            .map_err(FolderError::Io)
    }

    /// Writes the file in place, and remembers its folder, but not where its name is known to be flushed: where it was there, after a
    /// record was saved. What the helper flushes is left to it; so is what a write that failed may have made.
    fn overwrite(&self, place: StoredFile, bytes: &[u8]) -> Result<(), FolderError> {
        self.run.make_room()?;
        let is_helped = self.run.is_helped();
        let written = place.overwrite(&self.files, self.run.device(), is_helped, bytes);
        self.run.count(is_helped);
        if is_settled(&written, self.run.has_saved()) {
            return Ok(());
        }
        self.run.remember(place.folder)?;
        written?;
        Ok(())
    }

    /// Holds the folder, which is made where it is missing.
    fn hold_or_make(&mut self, directory: &str) -> Result<(), FolderError> {
        self.hold(directory)?;
        if !self.run.is_held() {
            make_new_folder(&self.files, directory)?;
            let folder = fs::open(&self.files, directory)?;
            self.keep(folder)?;
        }
        Ok(())
    }

    /// Takes the lock on the folder, where it is there and this run doesn't hold it yet. A run that found no folder uses none
    /// that another run has made since.
    fn hold(&mut self, directory: &str) -> Result<(), FolderError> {
        if self.run.is_held() {
            return Ok(());
        }
        self.run.look_at(directory)?;
        match open_folder(&self.files, Path::new(directory))? {
            None => self.run.miss(),
            Some(_) if self.run.was_missing() => return Err(FolderError::Io(io::Error::other(
                "another run made the folder",
            ))),
            Some(folder) => self.keep(folder)?,
        }
        Ok(())
    }

    /// Locks the folder that was opened, and keeps it open.
    fn keep(&mut self, folder: R::File) -> io::Result<()> {
        let folder = lock_folder(folder)?;
        self.run.hold(&folder.metadata()?);
        self.held = Some(folder);
        Ok(())
    }

    fn check_held(&self, directory: &str) -> io::Result<()> {
        self.run.check_held(&self.files, Path::new(directory))
    }
}

/// Whether the folder of a file needn't be remembered: the helper flushes it, or the file was there, after a record was saved.
fn is_settled(written: &io::Result<Written>, has_saved: bool) -> bool {
    match written {
        Ok(written) => written.is_left || (written.was_there && has_saved),
        Err(_) => false,
    }
}
