// What a copy ends with.
use fs_model::{FsError, Path};

/// How many directories, files and links were made, and of how many bytes the files are. A count stays at its type's end.
#[derive(Clone, Copy)]
pub struct Totals {
    pub dirs: u64,
    pub files: u64,
    pub links: u64,
    pub bytes: u64,
}

/// Why a copy ends early.
#[derive(Drop)]
pub enum CopyFail {
    Memory,
    /// A call on the folder failed.
    Host,
    /// A command wasn't answered.
    Stopped,
    /// The text of this path is too long.
    LongPath(Path),
    /// The command on this path was refused.
    Refused(Path, FsError),
}
