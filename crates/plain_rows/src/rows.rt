// Rows and the directories that hold them.
use fs_model::{Attr, Name, Path};

/// A row under its directory.
#[derive(Drop)]
pub struct Item {
    pub name: Name,
    pub attr: Attr,
    pub bytes: Vec<u8>,
}

/// A directory that has children: its path, its rows by their names, and the bytes that their entries take.
#[derive(Drop)]
pub struct Folder {
    pub path: Path,
    pub items: Vec<Box<Item>>,
    pub size: u64,
}
