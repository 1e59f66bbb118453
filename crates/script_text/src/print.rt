// Replies as text.
ghost use Rattle.std.specs.Prelude.{◌≡◌, ◌+◌, ◌<◌, ◌≤◌, ◌++◌, codes, length, vec_len, OnOk, OnErr};
ghost use Rattle.std.specs.Vec.{vec_capacity};
ghost use Rattle.std.specs.List.{flat_map};
ghost use Rattle.script_text.specs.Texts.{text_of, escaped, hex_byte, hex_text, kind_letter, escape, row_text, rows_text, numbers_text, moments_text, info_text, line, word};
ghost use Rattle.script_text.specs.Appending.{Appends};

use crate::digits::{push_byte, push_bytes, push_decimal, push_hex, push_moment, push_octal};
use crate::hex_digits::write_digits;
use block_id::Memory;
use fs_model::{Attr, FsError, Kind, ListRow, Reply};

/// Appends the lines of a reply, each with its newline. After `Memory`, which comes only where the room
/// in `out` is less than the text, `out` is as before.
pub fn print_reply(reply: &Reply, out: &mut Vec<u8>) -> Result<(), Memory>
    ensures ok { OnOk result (out.new.items ≡ out.old.items ++ text_of reply.now) }
    ensures err { OnErr result (out.new.items ≡ out.old.items) }
    ensures room { vec_capacity out.old ≤ vec_capacity out.new }
    ensures full { OnErr result (vec_capacity out.old < vec_len out.old + length (text_of reply.now)) }
{
    let before = out.len();
    let printed = push_reply(out, reply);
    if printed.is_err() {
        out.truncate(before);
    }
    printed
}

#[tactic(auto, unfolding(crate::specs::Texts::text_of))]
fn push_reply(out: &mut Vec<u8>, reply: &Reply) -> Result<(), Memory>
    ensures { Appends out.old out.new result (text_of reply.now) }
{
    match reply {
        Reply::Done => push_bytes(out, b"ok\n"),
        Reply::Rows(rows) => push_rows(out, rows.as_slice()),
        Reply::Info(attr, size) => push_info(out, attr, *size),
        Reply::Target(target) => push_target(out, target.as_slice()),
        Reply::Content(bytes) => push_content(out, bytes.as_slice()),
        Reply::Error(error) => push_bytes(out, error_line(*error)),
    }
}

fn push_rows(out: &mut Vec<u8>, rows: &[ListRow]) -> Result<(), Memory>
    ensures { Appends out.old out.new result (rows_text rows.now) }
{
    push_bytes(out, b"list")?;
    push_decimal(out, rows.len() as u64)?;
    push_byte(out, b'\n')?;
    push_each_row(out, rows)
}

fn push_each_row(out: &mut Vec<u8>, rows: &[ListRow]) -> Result<(), Memory>
    ensures { Appends out.old out.new result (flat_map row_text rows.now) }
{
    for row in rows {
        push_row(out, row)?;
    }
    Ok(())
}

fn push_row(out: &mut Vec<u8>, row: &ListRow) -> Result<(), Memory>
    ensures { Appends out.old out.new result (row_text row.now) }
{
    push_byte(out, kind_letter(row.kind))?;
    push_last_word(out, row.name.as_slice())
}

/// The last word of a line: bytes of a name or a target.
fn push_last_word(out: &mut Vec<u8>, bytes: &[u8]) -> Result<(), Memory>
    ensures { Appends out.old out.new result (line (word (escaped bytes.now))) }
{
    push_byte(out, b' ')?;
    push_escaped(out, bytes)?;
    push_byte(out, b'\n')
}

fn push_info(out: &mut Vec<u8>, attr: &Attr, size: u64) -> Result<(), Memory>
    ensures { Appends out.old out.new result (info_text attr.now size) }
{
    push_bytes(out, b"stat ")?;
    push_byte(out, kind_letter(attr.kind))?;
    push_details(out, attr, size)?;
    push_byte(out, b'\n')
}

/// What stands behind the kind.
fn push_details(out: &mut Vec<u8>, attr: &Attr, size: u64) -> Result<(), Memory>
    ensures { Appends out.old out.new result (numbers_text attr.now size ++ moments_text attr.now) }
{
    push_numbers(out, attr, size)?;
    push_moments(out, attr)
}

fn push_numbers(out: &mut Vec<u8>, attr: &Attr, size: u64) -> Result<(), Memory>
    ensures { Appends out.old out.new result (numbers_text attr.now size) }
{
    push_octal(out, attr.mode as u64)?;
    push_decimal(out, attr.uid as u64)?;
    push_decimal(out, attr.gid as u64)?;
    push_decimal(out, size)
}

fn push_moments(out: &mut Vec<u8>, attr: &Attr) -> Result<(), Memory>
    ensures { Appends out.old out.new result (moments_text attr.now) }
{
    push_moment(out, &attr.atime)?;
    push_moment(out, &attr.mtime)?;
    push_moment(out, &attr.ctime)
}

fn push_target(out: &mut Vec<u8>, target: &[u8]) -> Result<(), Memory>
    ensures { Appends out.old out.new result (line (codes "link" ++ word (escaped target.now))) }
{
    push_bytes(out, b"link")?;
    push_last_word(out, target)
}

fn push_content(out: &mut Vec<u8>, bytes: &[u8]) -> Result<(), Memory>
    ensures { Appends out.old out.new result (line (codes "data" ++ word (hex_text bytes.now))) }
{
    if bytes.is_empty() {
        return push_bytes(out, b"data -\n");
    }
    push_bytes(out, b"data ")?;
    push_hex_bytes(out, bytes)?;
    push_byte(out, b'\n')
}

fn push_hex_bytes(out: &mut Vec<u8>, bytes: &[u8]) -> Result<(), Memory>
    ensures { Appends out.old out.new result (flat_map hex_byte bytes.now) }
{
    let before = out.len();
    out.reserve(2 * bytes.len())?;
    out.resize(before + 2 * bytes.len(), 0)?;
    write_digits(bytes, &mut out.as_mut_slice()[before..]);
    Ok(())
}

/// Bytes of a name or a target.
fn push_escaped(out: &mut Vec<u8>, bytes: &[u8]) -> Result<(), Memory>
    ensures { Appends out.old out.new result (escaped bytes.now) }
{
    for byte in bytes {
        push_escape(out, *byte)?;
    }
    Ok(())
}

fn push_escape(out: &mut Vec<u8>, byte: u8) -> Result<(), Memory>
    ensures { Appends out.old out.new result (escape byte) }
{
    if (0x21..=0x7e).contains(&byte) && byte != b'\\' {
        return push_byte(out, byte);
    }
    push_bytes(out, b"\\x")?;
    push_hex(out, byte)
}

fn kind_letter(kind: Kind) -> u8
    ensures { result ≡ kind_letter kind }
{
    match kind {
        Kind::Directory => b'd',
        Kind::File => b'f',
        Kind::Link => b'l',
    }
}

#[tactic(auto, unfolding(crate::specs::Texts::text_of))]
fn error_line(error: FsError) -> &'static [u8]
    ensures { result.now ≡ text_of (Reply.Error error) }
{
    match error {
        FsError::NoEntry => b"error no-entry\n",
        FsError::Exists => b"error exists\n",
        FsError::NotDirectory => b"error not-directory\n",
        FsError::IsDirectory => b"error is-directory\n",
        FsError::NotEmpty => b"error not-empty\n",
        FsError::Invalid => b"error invalid\n",
        FsError::Busy => b"error busy\n",
        FsError::NameTooLong => b"error name-too-long\n",
        FsError::TooLarge => b"error too-large\n",
        FsError::NotLink => b"error not-link\n",
        FsError::BadLine => b"error bad-line\n",
    }
}
