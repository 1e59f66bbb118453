// Commands that make or take away one row.
ghost use Rattle.std.specs.Prelude.{◌≡◌, IfOk, OnErr};
ghost use Rattle.fs_model.specs.Tree.{upward, IsWellFormed};
ghost use Rattle.fs_model.specs.Tree as model;
ghost use Rattle.fs_model.specs.LookUp.{look};
ghost use Rattle.fs_model.specs.Step as step;
ghost use Rattle.plain_tree.specs.Answers.{IsAnswer};

use crate::change::touch_above;
use crate::look::{LookUp, look_up, row_of};
use block_id::Memory;
use fs_model::{Attr, FsError, Kind, MAX_ENTRIES, Moment, Name, Reply};
use plain_rows::{Table, name_size};

/// A directory, and not a file or a link.
pub fn is_directory(kind: Kind) -> bool
    ensures { result ≡ model.is_directory kind }
{
    match kind {
        Kind::Directory => true,
        Kind::File => false,
        Kind::Link => false,
    }
}

/// A new row.
pub fn make(
    table: &mut Table,
    names: &[Name],
    attr: Attr,
    bytes: Vec<u8>,
    now: Moment,
) -> Result<Reply, Memory>
    requires { IsWellFormed table.old }
    ensures ok { IfOk result (λ reply. IsAnswer table.new reply (step.made table.old now (upward names.now) (record { attr = attr; bytes = bytes.items }) (look table.old (upward names.now)))) }
    ensures err { OnErr result (table.new ≡ table.old) }
{
    match look_up(table, names) {
        LookUp::Found(_, _) => return Ok(Reply::Error(FsError::Exists)),
        LookUp::Free => {}
        LookUp::Bad(error) => return Ok(Reply::Error(error)),
    }
    if names.is_empty() {
        return Ok(Reply::Error(FsError::Exists));
    }
    let last = names.len() - 1;
    if table.size(&names[..last]) + name_size(&names[last]) > MAX_ENTRIES {
        return Ok(Reply::Error(FsError::TooLarge));
    }
    table.insert(names, attr, bytes)?;
    touch_above(table, names, now);
    Ok(Reply::Done)
}

/// An empty directory goes.
pub fn remove_directory(table: &mut Table, names: &[Name], now: Moment) -> Reply
    requires { IsWellFormed table.old }
    ensures { IsAnswer table.new result (step.unless_root table.old (upward names.now) (step.removed_directory table.old now (upward names.now) (look table.old (upward names.now)))) }
{
    if names.is_empty() {
        return Reply::Error(FsError::Busy);
    }
    let (attr, _) = match row_of(table, names) {
        Ok(row) => row,
        Err(error) => return Reply::Error(error),
    };
    if is_directory(attr.kind) {
        if has_child(table, names) {
            return Reply::Error(FsError::NotEmpty);
        }
        table.remove(names);
        touch_above(table, names, now);
        return Reply::Done;
    }
    Reply::Error(FsError::NotDirectory)
}

/// The directory has a child.
pub fn has_child(table: &Table, names: &[Name]) -> bool
    ensures { result ≡ step.has_child table.now (upward names.now) }
{
    table.size(names) > 0
}

/// A file or a link goes.
pub fn remove_file(table: &mut Table, names: &[Name], now: Moment) -> Reply
    requires { IsWellFormed table.old }
    ensures { IsAnswer table.new result (step.unless_root table.old (upward names.now) (step.removed_file table.old now (upward names.now) (look table.old (upward names.now)))) }
{
    if names.is_empty() {
        return Reply::Error(FsError::Busy);
    }
    let (attr, _) = match row_of(table, names) {
        Ok(row) => row,
        Err(error) => return Reply::Error(error),
    };
    if is_directory(attr.kind) {
        return Reply::Error(FsError::IsDirectory);
    }
    table.remove(names);
    touch_above(table, names, now);
    Reply::Done
}
