// Why the copy of a row ends early.
use fs_model::FsError;

/// Why the copy of a row ends early. A refusal is of a command on the row's path.
#[derive(Clone, Copy)]
pub enum Stop {
    Memory,
    Host,
    Stopped,
    Refused(FsError),
}
