// The names that are no file of the file system, as lines.
ghost use Rattle.std.specs.Prelude.{◌≡◌, ◌≤◌, ◌++◌, [], map, IfOk, OnOk};
ghost use Rattle.std.specs.List.{flat_map, list_any};
ghost use Rattle.std.specs.List.Sorted.{IsSorted};
ghost use Rattle.std.specs.Ordering.{nat_cmp};
ghost use Rattle.std.specs.Cmp.Lexicographic.{slice_cmp};
ghost use Rattle.std.specs.Str.{bytes_eq};
ghost use Rattle.copy_sessions.specs.line_io.Streams.{stream_of};
ghost use Rattle.copy_sessions.specs.script_text.Appending.{Appends};
ghost use Rattle.check_texts.specs.Printing.{Prints};
ghost use Rattle.check_texts.specs.Strangers.{ArePrinted, IsInOrder, block_file, file_names, line_beside, stranger_text};

use crate::error::PrintError;
use crate::page::Page;
use block_id::Memory;
use copy_sessions::push_escaped;
use copy_sessions::script_text::push_bytes;
use cryfs_check::Owners;
use outside::{ByteLine, FileName, Sink, file_text};
use std::alloc::Global;

/// Prints each of these names that is neither the configuration's nor that of a live block, in the order of their bytes.
pub fn print_strangers<O: Sink>(
    alloc: Global,
    owners: &Owners,
    names: Vec<ByteLine>,
    page: &mut Page,
    output: &mut O,
) -> Result<(), PrintError>
    requires { page.old ≡ [] }
    ensures printed { ArePrinted (stream_of O.written O.faults output.old output.new) owners.now names.items page.new result }
    ensures grows { O.faults output.old ≤ O.faults output.new }
{
    let mut names = names;
    sort_lines(&mut names);
    let files = own_files(alloc, owners)?;
    print_each(&files, &names, page, output)?;
    page.write(output)
}

/// Prints each of these names that isn't one of these files.
fn print_each<O: Sink>(
    files: &[ByteLine],
    names: &[ByteLine],
    page: &mut Page,
    output: &mut O,
) -> Result<(), PrintError>
    requires { IsSorted (slice_cmp nat_cmp) files.now }
    ensures printed { Prints (stream_of O.written O.faults output.old output.new) page.old (flat_map (line_beside files.now) names.now) page.new result }
    ensures grows { O.faults output.old ≤ O.faults output.new }
{
    for name in names {
        print_name(files, name, page, output)?;
    }
    Ok(())
}

/// Prints the name, where it isn't one of these files.
fn print_name<O: Sink>(
    files: &[ByteLine],
    name: &ByteLine,
    page: &mut Page,
    output: &mut O,
) -> Result<(), PrintError>
    requires { IsSorted (slice_cmp nat_cmp) files.now }
    ensures printed { Prints (stream_of O.written O.faults output.old output.new) page.old (line_beside files.now name.now) page.new result }
    ensures grows { O.faults output.old ≤ O.faults output.new }
{
    if has_line(files, name) {
        return Ok(());
    }
    push_stranger(&mut page.bytes, name.as_slice())?;
    page.turn(output)
}

/// Appends the line of a stranger.
fn push_stranger(out: &mut Vec<u8>, name: &[u8]) -> Result<(), Memory>
    ensures { Appends out.old out.new result (stranger_text name.now) }
{
    push_bytes(out, b"stranger ")?;
    push_escaped(out, name)?;
    push_bytes(out, b"\n")
}

/// The names of the configuration's file and of the live blocks' files, in the order of their bytes.
fn own_files(alloc: Global, owners: &Owners) -> Result<Vec<ByteLine>, Memory>
    ensures { IfOk result (λ files. IsInOrder (file_names owners.now) files.items) }
{
    let mut files = Vec::new(alloc);
    files.push(file_text(alloc, &FileName::Config)?)?;
    push_files(alloc, owners, &mut files)?;
    sort_lines(&mut files);
    Ok(files)
}

/// Puts the names of the live blocks' files behind the others.
fn push_files(alloc: Global, owners: &Owners, files: &mut Vec<ByteLine>) -> Result<(), Memory>
    ensures { OnOk result (files.new.items ≡ files.old.items ++ map block_file owners.now) }
{
    for i in 0..owners.len() {
        if let Some(id) = owners.id(i) {
            files.push(file_text(alloc, &FileName::Block(id))?)?;
        }
    }
    Ok(())
}

/// Puts the lines in the order of their bytes.
fn sort_lines(lines: &mut Vec<ByteLine>)
    ensures { IsInOrder lines.old.items lines.new.items }
{
    lines.sort_unstable();
}

/// Whether the line is one of these.
fn has_line(lines: &[ByteLine], line: &ByteLine) -> bool
    requires { IsSorted (slice_cmp nat_cmp) lines.now }
    ensures { result ≡ list_any (bytes_eq line.now) lines.now }
{
    lines.binary_search(line).is_ok()
}
