// Attributes of a row.

use crate::Moment;

/// The mode of a new directory and of the root, 755 octal.
pub const DIRECTORY_MODE: u32 = 0o755;

/// The mode of a new file, 644 octal.
pub const FILE_MODE: u32 = 0o644;

/// The mode of a new link, 777 octal.
pub const LINK_MODE: u32 = 0o777;

/// What stands at a path.
#[derive(Clone, Copy)]
pub enum Kind {
    Directory,
    File,
    Link,
}

/// What a row is beside its bytes.
#[derive(Clone, Copy)]
pub struct Attr {
    pub kind: Kind,
    /// At most 7777 octal.
    pub mode: u32,
    pub uid: u32,
    pub gid: u32,
    /// Last use.
    pub atime: Moment,
    /// Last change of the content.
    pub mtime: Moment,
    /// Last change of the content or the attributes.
    pub ctime: Moment,
}
