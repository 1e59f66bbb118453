// The commands of the tree language.
ghost use Rattle.std.specs.Prelude.{◌≡◌, ◌↔◌, IsTrue};
ghost use Rattle.fs_model.specs.Fitting.{IsFitting, HoldsNames, is_target};
ghost use Rattle.fs_model.specs.Names.{is_zero};
ghost use Rattle.std.specs.List.{list_any};

use crate::limits::{MAX_MODE, MAX_TARGET};
use crate::{ByteText, Moment, Path};

/// One command on the tree.
#[derive(Drop)]
pub enum Command {
    List(Path),
    Stat(Path),
    Mkdir(Path),
    Rmdir(Path),
    Mkfile(Path),
    Rm(Path),
    /// From the first path to the second.
    Mv(Path, Path),
    /// The target, and the path of the link.
    Symlink(ByteText, Path),
    Readlink(Path),
    /// The place of the first byte, and the bytes.
    Write(Path, u64, ByteText),
    /// The place of the first byte, and how many.
    Read(Path, u64, u64),
    /// The new length.
    Truncate(Path, u64),
    /// The mode.
    Chmod(Path, u32),
    /// The uid and the gid.
    Chown(Path, u32, u32),
    /// The atime and the mtime.
    Utime(Path, Moment, Moment),
    Sync,
}

impl Command {
    /// A link's target has 1 to 4,095 bytes, none of them zero, and a mode is at most 7777 octal.
    pub fn fits(&self) -> bool
        ensures { IsTrue result ↔ IsFitting self.now }
    {
        match self {
            Command::Symlink(target, _) => has_target_form(target.as_slice()),
            Command::Chmod(_, mode) => *mode <= MAX_MODE,
            _ => true,
        }
    }

    /// Each element of its paths is a name.
    pub fn holds_names(&self)
        ensures { HoldsNames self.now }
    {
        match self {
            Command::Mv(from, to) => {
                from.holds_names();
                to.holds_names();
            }
            Command::List(path)
            | Command::Stat(path)
            | Command::Mkdir(path)
            | Command::Rmdir(path)
            | Command::Mkfile(path)
            | Command::Rm(path)
            | Command::Symlink(_, path)
            | Command::Readlink(path)
            | Command::Write(path, _, _)
            | Command::Read(path, _, _)
            | Command::Truncate(path, _)
            | Command::Chmod(path, _)
            | Command::Chown(path, _, _)
            | Command::Utime(path, _, _) => path.holds_names(),
            Command::Sync => (),
        }
    }
}

fn has_target_form(bytes: &[u8]) -> bool
    ensures { result ≡ is_target bytes.now }
{
    if bytes.is_empty() || bytes.len() > MAX_TARGET {
        return false;
    }
    !has_zero(bytes)
}

/// One of the bytes is zero.
pub fn has_zero(bytes: &[u8]) -> bool
    ensures { result ≡ list_any is_zero bytes.now }
{
    bytes.contains(&0)
}
