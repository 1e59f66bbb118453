// Where the folder lies, and which folders may not be copied.
use crate::error::HostError;
use std::fs::{self, File, Metadata};
use std::os::fd::AsRawFd;
use std::os::unix::fs::MetadataExt;
use std::path::Path;

/// The numbers of a device and of what is on it. While it is open, nothing else has the same.
pub type Numbers = (u64, u64);

pub fn numbers(found: &Metadata) -> Numbers {
    (found.dev(), found.ino())
}

/// The path of the folder, and of those of the blocks and of the record.
#[derive(Clone, Copy)]
pub struct Place<'a> {
    pub rt: HostRuntime,
    pub folder: &'a str,
    pub blocks: &'a str,
    pub state: &'a str,
}

impl<'a> Place<'a> {
    /// The folder, open. It isn't the block folder or the state folder, and lies in neither.
    pub fn open(self) -> Result<(File, Numbers), HostError> {
        let whole = fs::canonicalize(&self.rt, self.folder)?;
        let found = fs::metadata(&self.rt, whole.as_path())?;
        let folder = open_folder(&self.rt, whole.as_str())?;
        check_same(&folder, &found)?;
        self.check_way(&folder, &found)?;
        let barred = self.barred();
        let mut above = Some(whole.as_path());
        for _ in 0..=whole.as_str().len() {
            let Some(path) = above else {
                return Ok((folder, numbers(&found)));
            };
            if barred.bars(&fs::metadata(&self.rt, path)?) {
                return Err(HostError::Wrong(LIES_WITHIN));
            }
            above = path.parent();
        }
        Err(HostError::Wrong(LIES_WITHIN))
    }

    /// Fails where the system doesn't find an open folder by its number.
    fn check_way(self, folder: &File, found: &Metadata) -> Result<(), HostError> {
        let number = folder.as_raw_fd();
        let path = format!(in self.rt.alloc(); "/proc/self/fd/{number}/.")?;
        match fs::metadata(&self.rt, path.as_str()) {
            Ok(there) if numbers(&there) == numbers(found) => Ok(()),
            _ => Err(HostError::Wrong("can't be copied where /proc isn't mounted")),
        }
    }

    /// The numbers of the block folder and of the state folder, where they are there.
    pub fn barred(self) -> Barred {
        Barred {
            blocks: self.numbers_of(self.blocks),
            state: self.numbers_of(self.state),
        }
    }

    fn numbers_of(self, path: &str) -> Option<Numbers> {
        match fs::metadata(&self.rt, path) {
            Ok(found) => Some(numbers(&found)),
            Err(_) => None,
        }
    }
}

const LIES_WITHIN: &str = "is the block folder or the state folder, or lies in one";

/// The numbers of the folders that may not be copied.
#[derive(Clone, Copy)]
pub struct Barred {
    blocks: Option<Numbers>,
    state: Option<Numbers>,
}

impl Barred {
    pub fn bars(&self, found: &Metadata) -> bool {
        let found = Some(numbers(found));
        found == self.blocks || found == self.state
    }
}

/// The folder at this path, open. The point behind it keeps anything else from being opened, be it a pipe that nobody writes to.
pub fn open_folder(rt: &HostRuntime, path: &str) -> Result<File, HostError> {
    let path = Path::new(path).join(rt.alloc(), ".")?;
    Ok(File::open(rt, path.as_path())?)
}

/// Fails where what was opened isn't what was looked at.
pub fn check_same(opened: &File, found: &Metadata) -> Result<(), HostError> {
    if numbers(&opened.metadata()?) == numbers(found) {
        Ok(())
    } else {
        Err(HostError::Wrong("is another one now"))
    }
}
