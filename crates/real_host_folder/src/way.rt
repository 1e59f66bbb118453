// The folders on the way to a row, each held open, and the file that is open in the last one.
ghost use Rattle.std.specs.Prelude.{◌≤◌, ◌<◌, length};

use crate::attributes::{dress_link, dress_opened};
use crate::error::HostError;
use crate::place::{Numbers, Place, check_same, numbers, open_folder};
use crate::text::{name_text, text_of};
use fs_model::{Attr, Kind, Name};
use std::alloc::Global;
use std::fs::{self, File, Metadata, OpenOptions};
use std::os::fd::AsRawFd;
use std::os::unix::fs::symlink;

/// How many folders below the first are open at once. Those above them are closed, and found again by their numbers.
const MOST_OPEN: usize = 64;

const NOT_OPEN: HostError = HostError::Wrong("isn't open");

/// A folder on the way.
#[derive(Drop)]
struct Held {
    name: String,
    numbers: Numbers,
    folder: Option<File>,
    /// Whether rows were made in it that aren't flushed.
    is_changed: bool,
}

impl Held {
    /// Flushes the names in it.
    fn flush(&mut self) -> Result<(), HostError> {
        match &self.folder {
            Some(folder) if self.is_changed => {
                self.is_changed = false;
                Ok(folder.sync_all()?)
            }
            _ => Ok(()),
        }
    }

    fn close(&mut self) -> Result<(), HostError> {
        let flushed = self.flush();
        self.folder = None;
        flushed
    }

    /// The path by which the system finds the child of this name in the very folder that is open, whatever lies at that folder's own
    /// path by now.
    fn path(&self, alloc: Global, name: &str) -> Result<String, HostError> {
        match &self.folder {
            Some(folder) => {
                let number = folder.as_raw_fd();
                Ok(format!(in alloc; "/proc/self/fd/{number}/{name}")?)
            }
            None => Err(NOT_OPEN),
        }
    }
}

/// What a file is open for.
#[derive(Clone, Copy, PartialEq, Eq)]
pub enum Access {
    Read,
    Append,
}

/// The file that is open.
#[derive(Drop)]
struct Opened {
    name: String,
    file: File,
    access: Access,
}

/// The way: the folder itself first. No step of it follows a link.
#[derive(Drop)]
pub struct Way {
    held: Vec<Held>,
    opened: Option<Opened>,
}

impl Way {
    /// No folder is open yet.
    pub fn new(alloc: Global) -> Way {
        Way {
            held: Vec::new(alloc),
            opened: None,
        }
    }

    /// Comes to the folder of these names, and opens what isn't open yet.
    pub fn reach(&mut self, place: Place<'_>, names: &[Name]) -> Result<(), HostError> {
        if self.held.is_empty() {
            let (folder, numbers) = place.open()?;
            self.hold(String::new(place.rt.alloc()), folder, numbers)?;
        }
        let kept = self.kept(names);
        if kept < self.depth() || kept < names.len() {
            self.leave_file()?;
        }
        self.leave_below(kept)?;
        self.open_closed(place)?;
        for name in &names[kept..] {
            self.enter(place, name)?;
        }
        Ok(())
    }

    /// How many folders below the first are on the way.
    fn depth(&self) -> usize {
        self.held.len().saturating_sub(1)
    }

    /// How many of these names, from the first on, are those of the folders on the way.
    fn kept(&self, names: &[Name]) -> usize
        ensures { result ≤ length names.now }
    {
        for i in 0..names.len() {
            let is_same = match self.held.get(i + 1) {
                Some(held) => held.name.as_bytes() == names[i].as_slice(),
                None => false,
            };
            if !is_same {
                return i;
            }
        }
        names.len()
    }

    fn leave_below(&mut self, depth: usize) -> Result<(), HostError> {
        for _ in 0..self.held.len() {
            if self.depth() <= depth {
                break;
            }
            if let Some(mut held) = self.held.pop() {
                held.close()?;
            }
        }
        Ok(())
    }

    /// Where the last folder is closed, opens those on the way to it again, from the first on.
    fn open_closed(&mut self, place: Place<'_>) -> Result<(), HostError> {
        match self.held.last() {
            Some(last) if last.folder.is_none() => {}
            _ => return Ok(()),
        }
        for at in 1..self.held.len() {
            self.open_again(place, at)?;
        }
        Ok(())
    }

    /// Opens the folder here again. It has to be the one that it was.
    fn open_again(&mut self, place: Place<'_>, at: usize) -> Result<(), HostError>
        requires { 0 < at }
    {
        let (folder, numbers) = open_below(place, self.path_of(place.rt.alloc(), at)?.as_str())?;
        match self.held.get_mut(at) {
            Some(held) if held.numbers == numbers => held.folder = Some(folder),
            _ => return Err(HostError::Wrong("is another one now")),
        }
        self.close_above(at)
    }

    /// The path by which the system finds the folder here in the one above it.
    fn path_of(&self, alloc: Global, at: usize) -> Result<String, HostError>
        requires { 0 < at }
    {
        match (self.held.get(at - 1), self.held.get(at)) {
            (Some(above), Some(held)) => above.path(alloc, held.name.as_str()),
            _ => Err(NOT_OPEN),
        }
    }

    /// Opens the folder of this name in the last one.
    fn enter(&mut self, place: Place<'_>, name: &Name) -> Result<(), HostError> {
        let name = name_text(name)?;
        let (folder, numbers) = open_below(place, self.path(place.rt.alloc(), name)?.as_str())?;
        let name = String::from_str(place.rt.alloc(), name)?;
        self.hold(name, folder, numbers)?;
        let depth = self.depth();
        self.close_above(depth)
    }

    fn hold(&mut self, name: String, folder: File, numbers: Numbers) -> Result<(), HostError> {
        self.held.push(Held {
            name,
            numbers,
            folder: Some(folder),
            is_changed: false,
        })?;
        Ok(())
    }

    /// Closes the folder so far above this one that no more than the most are open.
    fn close_above(&mut self, at: usize) -> Result<(), HostError> {
        if at <= MOST_OPEN {
            return Ok(());
        }
        match self.held.get_mut(at - MOST_OPEN) {
            Some(held) => held.close(),
            None => Ok(()),
        }
    }

    /// The path of the last folder, or of a child of it.
    pub fn path(&self, alloc: Global, child: &str) -> Result<String, HostError> {
        match self.held.last() {
            Some(last) => last.path(alloc, child),
            None => Err(NOT_OPEN),
        }
    }

    /// Says that a row was made in the last folder.
    fn change(&mut self) {
        if let Some(last) = self.held.last_mut() {
            last.is_changed = true;
        }
    }

    /// Closes the file. What was put behind its bytes is flushed.
    fn leave_file(&mut self) -> Result<(), HostError> {
        match self.opened.take() {
            Some(opened) if opened.access == Access::Append => Ok(opened.file.sync_all()?),
            _ => Ok(()),
        }
    }

    /// Closes all, and flushes what was made.
    pub fn leave(&mut self) -> Result<(), HostError> {
        let file = self.leave_file();
        let mut flushed = Ok(());
        for held in self.held.iter_mut() {
            let closed = held.close();
            if flushed.is_ok() {
                flushed = closed;
            }
        }
        self.held.clear();
        file?;
        flushed
    }

    /// The file of this name in the last folder, open for this.
    pub fn file(
        &mut self,
        place: Place<'_>,
        name: &Name,
        access: Access,
    ) -> Result<&mut File, HostError> {
        if !self.has_open(name, access) {
            self.leave_file()?;
            let name = name_text(name)?;
            let path = self.path(place.rt.alloc(), name)?;
            let file = open_file(place, path.as_str(), access)?;
            self.keep(place, name, file, access)?;
        }
        match &mut self.opened {
            Some(opened) => Ok(&mut opened.file),
            None => Err(NOT_OPEN),
        }
    }

    /// Makes a new folder of this name in the last one.
    pub fn make_folder(&mut self, place: Place<'_>, name: &Name) -> Result<(), HostError> {
        let path = self.path(place.rt.alloc(), name_text(name)?)?;
        fs::create_dir(&place.rt, path.as_str())?;
        self.change();
        Ok(())
    }

    /// Makes a new file of this name in the last folder, and leaves it open.
    pub fn make_file(&mut self, place: Place<'_>, name: &Name) -> Result<(), HostError> {
        self.leave_file()?;
        let name = name_text(name)?;
        let path = self.path(place.rt.alloc(), name)?;
        let mut options = OpenOptions::new();
        options.append(true).create_new(true);
        let file = options.open(&place.rt, path.as_str())?;
        self.change();
        self.keep(place, name, file, Access::Append)
    }

    /// Makes a new link of this name in the last folder.
    pub fn make_link(
        &mut self,
        place: Place<'_>,
        name: &Name,
        target: &[u8],
    ) -> Result<(), HostError> {
        let target = text_of(target, "can't be a link: its target is no text")?;
        let path = self.path(place.rt.alloc(), name_text(name)?)?;
        symlink(&place.rt, target, path.as_str())?;
        self.change();
        Ok(())
    }

    /// What stands under this name in the last folder: its numbers, kind, mode, owner and moments. A link isn't followed.
    pub fn look(&self, place: Place<'_>, name: &Name) -> Result<Metadata, HostError> {
        let path = self.path(place.rt.alloc(), name_text(name)?)?;
        Ok(fs::symlink_metadata(&place.rt, path.as_str())?)
    }

    /// Gives what stands under this name in the last folder these attributes, as far as the system lets it. It has to be of their
    /// kind.
    pub fn dress(&mut self, place: Place<'_>, name: &Name, attr: &Attr) -> Result<(), HostError> {
        self.leave_file()?;
        let path = self.path(place.rt.alloc(), name_text(name)?)?;
        match attr.kind {
            Kind::Link => dress_link(place, path.as_str(), attr),
            Kind::File => {
                let file = open_file(place, path.as_str(), Access::Read)?;
                dress_opened(&file, attr)
            }
            Kind::Directory => {
                let (folder, _) = open_below(place, path.as_str())?;
                dress_opened(&folder, attr)
            }
        }
    }

    fn has_open(&self, name: &Name, access: Access) -> bool {
        match &self.opened {
            Some(opened) => opened.access == access && opened.name.as_bytes() == name.as_slice(),
            None => false,
        }
    }

    fn keep(
        &mut self,
        place: Place<'_>,
        name: &str,
        file: File,
        access: Access,
    ) -> Result<(), HostError> {
        self.opened = Some(Opened {
            name: String::from_str(place.rt.alloc(), name)?,
            file,
            access,
        });
        Ok(())
    }
}

/// The folder at this path of the system, open, with its numbers. A link isn't followed.
fn open_below(place: Place<'_>, path: &str) -> Result<(File, Numbers), HostError> {
    let found = fs::symlink_metadata(&place.rt, path)?;
    if !found.is_dir() {
        return Err(HostError::Wrong("is no folder"));
    }
    let folder = open_folder(&place.rt, path)?;
    check_same(&folder, &found)?;
    Ok((folder, numbers(&found)))
}

/// The file at this path of the system, open for this. A link isn't followed, and a pipe isn't opened.
fn open_file(place: Place<'_>, path: &str, access: Access) -> Result<File, HostError> {
    let found = fs::symlink_metadata(&place.rt, path)?;
    if !found.is_file() {
        return Err(HostError::Wrong("is no file"));
    }
    let mut options = OpenOptions::new();
    match access {
        Access::Read => options.read(true),
        Access::Append => options.append(true),
    };
    let file = options.open(&place.rt, path)?;
    check_same(&file, &found)?;
    Ok(file)
}
