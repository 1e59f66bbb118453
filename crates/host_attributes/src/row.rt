// A row with its attributes.
use fs_model::{Attr, Name};

/// One child of a directory, and its attributes.
#[derive(Drop)]
pub struct AttributedRow {
    pub name: Name,
    pub attr: Attr,
}
