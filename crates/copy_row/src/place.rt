// Where a row is in the folder and in the tree.
use fs_model::{Kind, Path};

/// A row's path in the folder, and in the tree.
#[derive(Drop)]
pub struct RowPlace {
    pub kind: Kind,
    pub host: Path,
    pub tree: Path,
}
