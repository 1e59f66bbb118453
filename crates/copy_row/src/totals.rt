// What was copied so far.
ghost use Rattle.std.specs.Prelude.{◌≡◌, [], ◌∷◌};
ghost use Rattle.copy_laws.specs.Ends.{counted};
ghost use Rattle.copy_row.specs.Reads.{with_row};
ghost use Rattle.copy_row.specs.Rows.{none_copied};

use copy_laws::Totals;
use fs_model::{Command, Kind};

/// Nothing yet.
pub fn no_totals() -> Totals
    ensures { result ≡ none_copied }
{
    Totals {
        dirs: 0,
        files: 0,
        links: 0,
        bytes: 0,
    }
}

/// The totals with this command more.
pub fn count(totals: &mut Totals, command: &Command)
    ensures { totals.new ≡ counted totals.old (command.now ∷ []) }
{
    let before = *totals;
    let (dirs, files, links, bytes) = match command {
        Command::Mkdir(_) => (1, 0, 0, 0),
        Command::Mkfile(_) => (0, 1, 0, 0),
        Command::Symlink(_, _) => (0, 0, 1, 0),
        Command::Write(_, _, text) => (0, 0, 0, text.as_slice().len() as u64),
        _ => (0, 0, 0, 0),
    };
    *totals = Totals {
        dirs: before.dirs.saturating_add(dirs),
        files: before.files.saturating_add(files),
        links: before.links.saturating_add(links),
        bytes: before.bytes.saturating_add(bytes),
    };
}

/// The totals with this row more; a file has so many bytes.
pub fn count_row(totals: &mut Totals, kind: Kind, bytes: u64)
    ensures { totals.new ≡ with_row totals.old kind bytes }
{
    let before = *totals;
    let (dirs, files, links, bytes) = match kind {
        Kind::Directory => (1, 0, 0, 0),
        Kind::File => (0, 1, 0, bytes),
        Kind::Link => (0, 0, 1, 0),
    };
    *totals = Totals {
        dirs: before.dirs.saturating_add(dirs),
        files: before.files.saturating_add(files),
        links: before.links.saturating_add(links),
        bytes: before.bytes.saturating_add(bytes),
    };
}
