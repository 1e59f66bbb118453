// Commands that only look.
ghost use Rattle.std.specs.Prelude.{◌≡◌, IfOk};
ghost use Rattle.fs_model.specs.Tree.{upward, IsWellFormed};
ghost use Rattle.fs_model.specs.LookUp.{look};
ghost use Rattle.fs_model.specs.Step.{listed, told, target_read, content_read};
ghost use Rattle.plain_tree.specs.Answers.{content_reply};

use crate::look::row_of;
use block_id::Memory;
use fs_model::{ByteText, FsError, Kind, MAX_READ, Name, Reply, RowList};
use plain_rows::Table;
use std::alloc::Global;

/// Kind and name of each child.
pub fn list(alloc: Global, table: &Table, names: &[Name]) -> Result<Reply, Memory>
    requires { IsWellFormed table.now }
    ensures { IfOk result (λ reply. reply ≡ (listed table.now (upward names.now) (look table.now (upward names.now))).reply) }
{
    let (attr, _) = match row_of(table, names) {
        Ok(row) => row,
        Err(error) => return Ok(Reply::Error(error)),
    };
    match attr.kind {
        Kind::Directory => Ok(Reply::Rows(RowList::new(table.list(alloc, names)?))),
        Kind::File => Ok(Reply::Error(FsError::NotDirectory)),
        Kind::Link => Ok(Reply::Error(FsError::NotDirectory)),
    }
}

/// The attributes and the number of bytes.
pub fn stat(table: &Table, names: &[Name]) -> Reply
    requires { IsWellFormed table.now }
    ensures { result ≡ (told table.now (look table.now (upward names.now))).reply }
{
    match row_of(table, names) {
        Ok((attr, bytes)) => Reply::Info(attr, bytes.len() as u64),
        Err(error) => Reply::Error(error),
    }
}

/// The target of a link.
pub fn read_link(alloc: Global, table: &Table, names: &[Name]) -> Result<Reply, Memory>
    requires { IsWellFormed table.now }
    ensures { IfOk result (λ reply. reply ≡ (target_read table.now (look table.now (upward names.now))).reply) }
{
    let (attr, bytes) = match row_of(table, names) {
        Ok(row) => row,
        Err(error) => return Ok(Reply::Error(error)),
    };
    match attr.kind {
        Kind::Directory => Ok(Reply::Error(FsError::NotLink)),
        Kind::File => Ok(Reply::Error(FsError::NotLink)),
        Kind::Link => Ok(Reply::Target(ByteText::new(bytes.to_vec(alloc)?))),
    }
}

/// At most `count` bytes from `from` on.
pub fn read(
    alloc: Global,
    table: &Table,
    names: &[Name],
    from: u64,
    count: u64,
) -> Result<Reply, Memory>
    requires { IsWellFormed table.now }
    ensures { IfOk result (λ reply. reply ≡ (content_read table.now from count (look table.now (upward names.now))).reply) }
{
    let (attr, bytes) = match row_of(table, names) {
        Ok(row) => row,
        Err(error) => return Ok(Reply::Error(error)),
    };
    match attr.kind {
        Kind::Directory => Ok(Reply::Error(FsError::IsDirectory)),
        Kind::File => read_content(alloc, bytes, from, count),
        Kind::Link => Ok(Reply::Error(FsError::Invalid)),
    }
}

/// The bytes of a file, cut at its end.
fn read_content(alloc: Global, bytes: &[u8], from: u64, count: u64) -> Result<Reply, Memory>
    ensures { IfOk result (λ reply. reply ≡ content_reply bytes.now from count) }
{
    if count > MAX_READ {
        return Ok(Reply::Error(FsError::TooLarge));
    }
    let start = from.min(bytes.len() as u64) as usize;
    let rest = &bytes[start..];
    let end = count.min(rest.len() as u64) as usize;
    Ok(Reply::Content(ByteText::new(rest[..end].to_vec(alloc)?)))
}
