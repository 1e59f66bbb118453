// The replies to commands.
ghost use Rattle.std.specs.Prelude.{◌≡◌};

use crate::{Attr, ByteText, FsError, Kind, Name};
use std::marker::Model;

/// One child of a directory.
#[derive(Drop)]
pub struct ListRow {
    pub kind: Kind,
    pub name: Name,
}

/// The children of a directory, by increasing bytes of their names.
#[derive(Drop)]
pub struct RowList {
    rows: Vec<ListRow>,
}

impl Model for RowList {
    ghost use Rattle.std.specs.Prelude.{List};
    ghost use Rattle.fs_model.specs.declared.reply.ListRow.{ListRow};

    ghost Value = { List ListRow };

    ghost view = { λ l. l.rows.items };
}

impl RowList {
    /// These rows.
    pub fn new(rows: Vec<ListRow>) -> RowList
        ensures { result ≡ rows.items }
    {
        RowList { rows }
    }

    /// The rows.
    pub fn as_slice(&self) -> &[ListRow]
        ensures { result.now ≡ self.now }
    {
        self.rows.as_slice()
    }
}

/// What a command answers.
#[derive(Drop)]
pub enum Reply {
    Done,
    Rows(RowList),
    /// The attributes, and the number of bytes.
    Info(Attr, u64),
    Target(ByteText),
    Content(ByteText),
    Error(FsError),
}
