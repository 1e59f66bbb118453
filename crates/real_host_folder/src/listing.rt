// The rows of a folder of the host.
ghost use Rattle.std.specs.Prelude.{◌≡◌, IfOk, IsTrue};
ghost use Rattle.std.specs.declared.cmp.Ordering.TheVariants.{Less};
ghost use Rattle.fs_model.specs.Tree.{name_cmp};
ghost use Rattle.host_attributes.specs.host_folder.Folders.{RowsRise};

use crate::error::HostError;
use crate::place::{Barred, Place};
use crate::telling::Telling;
use crate::text::text_of;
use fs_model::{Kind, ListRow, Name};
use std::alloc::Global;
use std::cmp::Ordering;
use std::fs::{self, DirEntry, Metadata};
use std::io::{self, ErrorKind};

/// The rows of the folder that is open at this path of the system, by increasing names. Each entry that is no row is told; where one is
/// none since it is neither file, folder nor link, that may be left out.
pub fn rows(
    place: Place<'_>,
    telling: &mut Telling<'_>,
    names: &[Name],
    path: &str,
    leaves_out: bool,
) -> Result<Vec<ListRow>, HostError>
    ensures { IfOk result (λ rows. RowsRise rows.items) }
{
    let barred = place.barred();
    let mut rows = Vec::new(place.rt.alloc());
    let mut is_well = true;
    for entry in fs::read_dir(&place.rt, path)? {
        let entry = named(entry)?;
        match row(place.rt.alloc(), &barred, &entry) {
            Ok(Some(row)) => rows.push(row)?,
            Ok(None) => {}
            Err(HostError::Memory) => return Err(HostError::Memory),
            Err(HostError::NoRow) if leaves_out => {
                telling.tell_left_out(names, entry.file_name());
            }
            Err(error) => {
                telling.tell(names, Some(entry.file_name()), &error);
                is_well = false;
            }
        }
    }
    if is_well {
        in_order(rows)
    } else {
        Err(HostError::Told)
    }
}

/// An entry whose name is text.
fn named(entry: io::Result<DirEntry>) -> Result<DirEntry, HostError> {
    match entry {
        Ok(entry) => Ok(entry),
        Err(error) if error.kind() == ErrorKind::InvalidFilename => Err(HostError::Wrong(
            "holds a name that is no text",
        )),
        Err(error) => Err(HostError::from(error)),
    }
}

/// The row of an entry, or None where it has gone by now.
fn row(alloc: Global, barred: &Barred, entry: &DirEntry) -> Result<Option<ListRow>, HostError> {
    let found = match entry.metadata() {
        Ok(found) => found,
        Err(error) if error.kind() == ErrorKind::NotFound => return Ok(None),
        Err(error) => return Err(HostError::from(error)),
    };
    let kind = kind_of(barred, &found)?;
    let name = String::from_str(alloc, entry.file_name())?;
    match Name::new(name.into_bytes()) {
        Some(name) => Ok(Some(ListRow { kind, name })),
        None => Err(HostError::Wrong("has a name of more than 255 bytes")),
    }
}

fn kind_of(barred: &Barred, found: &Metadata) -> Result<Kind, HostError> {
    if found.is_dir() && barred.bars(found) {
        return Err(HostError::Wrong("is the block folder or the state folder"));
    }
    if found.is_dir() {
        Ok(Kind::Directory)
    } else if found.is_file() {
        Ok(Kind::File)
    } else if found.is_symlink() {
        Ok(Kind::Link)
    } else {
        Err(HostError::NoRow)
    }
}

/// The rows by increasing names.
fn in_order(mut rows: Vec<ListRow>) -> Result<Vec<ListRow>, HostError>
    ensures { IfOk result (λ rows. RowsRise rows.items) }
{
    rows.sort_unstable_by(|a, b| a.name.as_slice().cmp(b.name.as_slice()));
    if rise(&rows) {
        Ok(rows)
    } else {
        Err(HostError::Wrong("gave a name twice"))
    }
}

/// Whether each name stands above the one before.
fn rise(rows: &[ListRow]) -> bool
    ensures { IsTrue result → RowsRise rows.now }
{
    for i in 1..rows.len() {
        if !stands_below(&rows[i - 1], &rows[i]) {
            return false;
        }
    }
    true
}

fn stands_below(row: &ListRow, next: &ListRow) -> bool
    ensures { IsTrue result → name_cmp row.now.name next.now.name ≡ Less }
{
    row.name.as_slice().cmp(&next.name.as_slice()) == Ordering::Less
}
