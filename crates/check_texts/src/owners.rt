// The owners of blocks, as lines.
ghost use Rattle.std.specs.Prelude.{◌≡◌, ◌≤◌, [], length};
ghost use Rattle.std.specs.List.{flat_map, slice_get};
ghost use Rattle.copy_sessions.specs.line_io.Streams.{stream_of};
ghost use Rattle.copy_sessions.specs.script_text.Appending.{Appends};
ghost use Rattle.check_texts.specs.Printing.{Prints, IsPrinted};
ghost use Rattle.check_texts.specs.Texts.{block_text, count_text, owner_text, owner_text_at, owners_text};

use crate::error::PrintError;
use crate::page::Page;
use block_id::{BlockId, Memory};
use copy_sessions::push_path;
use copy_sessions::script_text::{push_bytes, push_decimal};
use cryfs_check::Owners;
use fs_model::Path;
use outside::Sink;
use std::alloc::Global;

/// Prints how many blocks there are, and then each with the path that owns it.
pub fn print_owners<O: Sink>(
    alloc: Global,
    owners: &Owners,
    page: &mut Page,
    output: &mut O,
) -> Result<(), PrintError>
    requires { page.old ≡ [] }
    ensures printed { IsPrinted (stream_of O.written O.faults output.old output.new) (owners_text owners.now) page.new result }
    ensures grows { O.faults output.old ≤ O.faults output.new }
{
    print_count(owners.len() as u64, page, output)?;
    print_each(alloc, owners, page, output)?;
    page.write(output)
}

/// Prints how many blocks there are.
fn print_count<O: Sink>(count: u64, page: &mut Page, output: &mut O) -> Result<(), PrintError>
    ensures printed { Prints (stream_of O.written O.faults output.old output.new) page.old (count_text count) page.new result }
    ensures grows { O.faults output.old ≤ O.faults output.new }
{
    push_count(&mut page.bytes, count)?;
    page.turn(output)
}

/// Prints each block with the path that owns it.
fn print_each<O: Sink>(
    alloc: Global,
    owners: &Owners,
    page: &mut Page,
    output: &mut O,
) -> Result<(), PrintError>
    ensures printed { Prints (stream_of O.written O.faults output.old output.new) page.old (flat_map owner_text owners.now) page.new result }
    ensures grows { O.faults output.old ≤ O.faults output.new }
{
    for i in 0..owners.len() {
        print_at(alloc, owners, i, page, output)?;
    }
    Ok(())
}

/// Prints the block of this number, where there is one.
fn print_at<O: Sink>(
    alloc: Global,
    owners: &Owners,
    i: usize,
    page: &mut Page,
    output: &mut O,
) -> Result<(), PrintError>
    ensures printed { Prints (stream_of O.written O.faults output.old output.new) page.old (owner_text_at (slice_get owners.now i)) page.new result }
    ensures grows { O.faults output.old ≤ O.faults output.new }
{
    let id = match owners.id(i) {
        Some(id) => id,
        None => return Ok(()),
    };
    match owners.path(alloc, i)? {
        Some(path) => print_block(&id, &path, page, output),
        None => Ok(()),
    }
}

/// Prints a block with a path.
fn print_block<O: Sink>(
    id: &BlockId,
    path: &Path,
    page: &mut Page,
    output: &mut O,
) -> Result<(), PrintError>
    ensures printed { Prints (stream_of O.written O.faults output.old output.new) page.old (block_text id.now.0 path.now) page.new result }
    ensures grows { O.faults output.old ≤ O.faults output.new }
{
    push_block(&mut page.bytes, id, path)?;
    page.turn(output)
}

/// Appends the line of how many blocks there are.
fn push_count(out: &mut Vec<u8>, count: u64) -> Result<(), Memory>
    ensures { Appends out.old out.new result (count_text count) }
{
    push_bytes(out, b"check yes")?;
    push_decimal(out, count)?;
    push_bytes(out, b"\n")
}

/// Appends the line of a block with a path.
fn push_block(out: &mut Vec<u8>, id: &BlockId, path: &Path) -> Result<(), Memory>
    ensures { Appends out.old out.new result (block_text id.now.0 path.now) }
{
    push_bytes(out, b"block ")?;
    push_bytes(out, &id.to_name())?;
    push_bytes(out, b" ")?;
    push_path(out, path.names())?;
    push_bytes(out, b"\n")
}
