// Commands that change the content or the attributes of one row.
ghost use Rattle.std.specs.Prelude.{◌≡◌, ◌+◌, ◌≤◌, ◌++◌, length, take, drop, IfOk, OnOk, OnErr};
ghost use Rattle.block_id.specs.Contents.{overwritten, resized};
ghost use Rattle.fs_model.specs.declared.limits.TheConstants.{MAX_FILE};
ghost use Rattle.fs_model.specs.Tree.{parent, upward, IsWellFormed};
ghost use Rattle.fs_model.specs.LookUp.{look};
ghost use Rattle.fs_model.specs.Step as step;
ghost use Rattle.plain_tree.specs.Answers.{IsAnswer};
ghost use Rattle.fs_model.specs.Changes.{changed_by};

use crate::look::{file_of, row_of};
use block_id::Memory;
use fs_model::{Attr, AttrChange, FsError, Moment, Name, Reply, changed, is_too_long};
use plain_rows::Table;

/// Sets attributes.
pub fn set_attributes(table: &mut Table, names: &[Name], change: AttrChange, now: Moment) -> Reply
    requires { IsWellFormed table.old }
    ensures { IsAnswer table.new result (step.unless_root table.old (upward names.now) (step.attributes_set table.old (upward names.now) (changed_by change now) (look table.old (upward names.now)))) }
{
    if names.is_empty() {
        return Reply::Error(FsError::Busy);
    }
    let (attr, _) = match row_of(table, names) {
        Ok(row) => row,
        Err(error) => return Reply::Error(error),
    };
    let attr = changed(attr, change, now);
    let none = Vec::new(table.allocator());
    let bytes = table.set(names, same_attr(&attr), none);
    table.set(names, attr, bytes);
    Reply::Done
}

/// The same attributes.
pub fn same_attr(attr: &Attr) -> Attr
    ensures { result ≡ attr.now }
{
    *attr
}

/// The attributes after a change of the content.
fn touched(attr: Attr, now: Moment) -> Attr
    ensures { result ≡ record attr { mtime = now; ctime = now } }
{
    Attr {
        mtime: now,
        ctime: now,
        ..attr
    }
}

/// The directory at this path has other children: its mtime and ctime are now, but for the root's.
fn touch(table: &mut Table, names: &[Name], now: Moment)
    ensures { table.new ≡ step.touched table.old now (upward names.now) }
{
    if names.is_empty() {
        return;
    }
    let (attr, _) = match table.row(names) {
        Some(row) => row,
        None => return,
    };
    let none = Vec::new(table.allocator());
    let bytes = table.set(names, same_attr(&attr), none);
    table.set(names, touched(attr, now), bytes);
}

/// The directory that this path stands in has other children.
pub fn touch_above(table: &mut Table, names: &[Name], now: Moment)
    ensures { table.new ≡ step.touched table.old now (parent (upward names.now)) }
{
    if names.is_empty() {
        return;
    }
    let last = names.len() - 1;
    touch(table, &names[..last], now);
}

/// Writes the bytes from `from` on.
pub fn write(
    table: &mut Table,
    names: &[Name],
    from: u64,
    bytes: &[u8],
    now: Moment,
) -> Result<Reply, Memory>
    requires { IsWellFormed table.old }
    ensures ok { IfOk result (λ reply. IsAnswer table.new reply (step.written table.old now (upward names.now) from bytes.now (look table.old (upward names.now)))) }
    ensures err { OnErr result (table.new ≡ table.old) }
{
    let (attr, old) = match file_of(table, names) {
        Ok(file) => file,
        Err(error) => return Ok(Reply::Error(error)),
    };
    if bytes.is_empty() {
        return Ok(Reply::Done);
    }
    let end = from.saturating_add(bytes.len() as u64);
    if is_too_long(old, end.max(old)) {
        return Ok(Reply::Error(FsError::TooLarge));
    }
    let none = Vec::new(table.allocator());
    let mut content = table.set(names, same_attr(&attr), none);
    match overwrite(&mut content, from as usize, bytes) {
        Ok(()) => {
            table.set(names, touched(attr, now), content);
            Ok(Reply::Done)
        }
        Err(Memory) => {
            table.set(names, attr, content);
            Err(Memory)
        }
    }
}

/// Puts the bytes at `from`, with zeros between the old end and it. Memory is taken first.
fn overwrite(content: &mut Vec<u8>, from: usize, bytes: &[u8]) -> Result<(), Memory>
    requires { from + length bytes.now ≤ MAX_FILE }
    ensures ok { OnOk result (content.new.items ≡ overwritten content.old.items from bytes.now) }
    ensures err { OnErr result (content.new.items ≡ content.old.items) }
{
    let end = from + bytes.len();
    if end > content.len() {
        content.resize(end, 0)?;
    }
    put_at(content, from, bytes);
    Ok(())
}

/// Puts the bytes in place of those at `from`.
fn put_at(content: &mut [u8], from: usize, bytes: &[u8])
    requires { from + length bytes.now ≤ length content.old }
    ensures { content.new ≡ take from content.old ++ bytes.now ++ drop (from + length bytes.now) content.old }
{
    content[from..from + bytes.len()].copy_from_slice(bytes);
}

/// Cuts a file, or fills it with zeros.
pub fn truncate(table: &mut Table, names: &[Name], len: u64, now: Moment) -> Result<Reply, Memory>
    requires { IsWellFormed table.old }
    ensures ok { IfOk result (λ reply. IsAnswer table.new reply (step.truncated table.old now (upward names.now) len (look table.old (upward names.now)))) }
    ensures err { OnErr result (table.new ≡ table.old) }
{
    let (attr, old) = match file_of(table, names) {
        Ok(file) => file,
        Err(error) => return Ok(Reply::Error(error)),
    };
    if is_too_long(old, len) {
        return Ok(Reply::Error(FsError::TooLarge));
    }
    let none = Vec::new(table.allocator());
    let mut content = table.set(names, same_attr(&attr), none);
    match resize(&mut content, len as usize) {
        Ok(()) => {
            table.set(names, touched(attr, now), content);
            Ok(Reply::Done)
        }
        Err(Memory) => {
            table.set(names, attr, content);
            Err(Memory)
        }
    }
}

/// Cuts the bytes, or fills them up with zeros.
fn resize(content: &mut Vec<u8>, len: usize) -> Result<(), Memory>
    ensures ok { OnOk result (content.new.items ≡ resized content.old.items len) }
    ensures err { OnErr result (content.new.items ≡ content.old.items) }
{
    content.resize(len, 0)?;
    Ok(())
}
