// Rows that are made in a folder.
ghost use Rattle.std.specs.Prelude.{IfSome, IsTrue};
ghost use Rattle.fs_model.specs.Fitting.{is_target};

use fs_model::{ByteText, Command, Kind, Name, Path};
use host_attributes::host_folder::Folder;
use std::alloc::Global;

/// A row that is new: a folder, a file without bytes, or a link with this target.
#[derive(Clone, Copy)]
pub enum Row<'a> {
    Folder,
    File,
    Link(&'a str),
}

/// The path of these names.
pub fn path(alloc: Global, names: &[&str]) -> Option<Path> {
    let mut path = Path::root(alloc);
    for name in names {
        let bytes = name.as_bytes().to_vec(alloc).ok()?;
        path.push(Name::new(bytes)?).ok()?;
    }
    Some(path)
}

/// Whether the row is made.
pub fn makes<F: Folder>(alloc: Global, folder: &mut F, names: &[&str], row: Row<'_>) -> bool {
    let Some(at) = path(alloc, names) else {
        return false;
    };
    let none = ByteText::new(Vec::new(alloc));
    match row {
        Row::Folder => folder.make(alloc, &at, Kind::Directory, &none).is_ok(),
        Row::File => folder.make(alloc, &at, Kind::File, &none).is_ok(),
        Row::Link(text) => match target(alloc, text) {
            Some(target) => folder.make(alloc, &at, Kind::Link, &target).is_ok(),
            None => false,
        },
    }
}

/// The text as a link's target.
fn target(alloc: Global, text: &str) -> Option<ByteText>
    ensures { IfSome result (λ target. IsTrue (is_target target)) }
{
    let copy = ByteText::new(text.as_bytes().to_vec(alloc).ok()?);
    let bytes = copy.as_slice().to_vec(alloc).ok()?;
    if Command::Symlink(copy, Path::root(alloc)).fits() {
        Some(ByteText::new(bytes))
    } else {
        None
    }
}

/// Whether these bytes are put behind a file's.
pub fn appends<F: Folder>(alloc: Global, folder: &mut F, names: &[&str], bytes: &[u8]) -> bool {
    match path(alloc, names) {
        Some(at) => folder.append(alloc, &at, bytes).is_ok(),
        None => false,
    }
}

/// Whether the directory `d` with the file `f` of `ab` is made, and the link `l` to it.
pub fn fills_small<F: Folder>(alloc: Global, folder: &mut F) -> bool {
    makes(alloc, folder, &["d"], Row::Folder)
        && makes(alloc, folder, &["d", "f"], Row::File)
        && appends(alloc, folder, &["d", "f"], b"ab")
        && makes(alloc, folder, &["l"], Row::Link("d/f"))
}
