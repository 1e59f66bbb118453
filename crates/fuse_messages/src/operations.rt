// The numbers of the operations that are answered.

pub(crate) const LOOK_UP: u32 = 1;

pub(crate) const FORGET: u32 = 2;

pub(crate) const GET_ATTRIBUTES: u32 = 3;

pub(crate) const SET_ATTRIBUTES: u32 = 4;

pub(crate) const READ_LINK: u32 = 5;

pub(crate) const SYMLINK: u32 = 6;

pub(crate) const MAKE_NODE: u32 = 8;

pub(crate) const MAKE_DIRECTORY: u32 = 9;

pub(crate) const UNLINK: u32 = 10;

pub(crate) const REMOVE_DIRECTORY: u32 = 11;

pub(crate) const RENAME: u32 = 12;

pub(crate) const LINK: u32 = 13;

pub(crate) const OPEN: u32 = 14;

pub(crate) const READ: u32 = 15;

pub(crate) const WRITE: u32 = 16;

pub(crate) const STATISTICS: u32 = 17;

pub(crate) const RELEASE: u32 = 18;

pub(crate) const SYNC_FILE: u32 = 20;

pub(crate) const FLUSH: u32 = 25;

pub(crate) const INIT: u32 = 26;

pub(crate) const OPEN_DIRECTORY: u32 = 27;

pub(crate) const READ_DIRECTORY: u32 = 28;

pub(crate) const RELEASE_DIRECTORY: u32 = 29;

pub(crate) const SYNC_DIRECTORY: u32 = 30;

pub(crate) const CREATE: u32 = 35;

pub(crate) const INTERRUPT: u32 = 36;

pub(crate) const DESTROY: u32 = 38;

pub(crate) const FORGET_MANY: u32 = 42;

pub(crate) const READ_DIRECTORY_PLUS: u32 = 44;

/// The renaming that has flags.
pub(crate) const RENAME_WITH_FLAGS: u32 = 45;

pub(crate) const SYNC_ALL: u32 = 50;
