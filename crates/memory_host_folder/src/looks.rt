// What stands in a folder.
use crate::rows::path;
use fs_model::Kind;
use host_attributes::host_folder::Folder;
use std::alloc::Global;

/// Whether the rows of the folder are these, in this order, each with `d`, `f` or `l` before its name.
pub fn has_rows<F: Folder>(alloc: Global, folder: &mut F, names: &[&str], rows: &[&str]) -> bool {
    let Some(at) = path(alloc, names) else {
        return false;
    };
    let Ok(found) = folder.list(alloc, &at) else {
        return false;
    };
    let found = found.as_slice();
    let mut same = found.len() == rows.len();
    for (row, wanted) in found.iter().zip(rows.iter()) {
        same = same && is_row(row.kind, row.name.as_slice(), wanted.as_bytes());
    }
    same
}

fn is_row(kind: Kind, name: &[u8], wanted: &[u8]) -> bool {
    let first = match kind {
        Kind::Directory => b'd',
        Kind::File => b'f',
        Kind::Link => b'l',
    };
    match wanted.split_first() {
        Some((kind, rest)) => *kind == first && rest == name,
        None => false,
    }
}

/// Whether a file has these bytes from this place on, and no more.
pub fn holds<F: Folder>(
    alloc: Global,
    folder: &mut F,
    names: &[&str],
    from: u64,
    wanted: &[u8],
) -> bool {
    let Some(at) = path(alloc, names) else {
        return false;
    };
    let Ok(mut piece) = Vec::from_elem(alloc, 0, wanted.len().saturating_add(1)) else {
        return false;
    };
    match folder.read(&at, from, &mut piece) {
        Ok(n) => piece.get(..n) == Some(wanted),
        Err(_) => false,
    }
}

/// Whether a link has this target.
pub fn leads<F: Folder>(alloc: Global, folder: &mut F, names: &[&str], wanted: &str) -> bool {
    let Some(at) = path(alloc, names) else {
        return false;
    };
    match folder.link(alloc, &at) {
        Ok(target) => target.as_slice() == wanted.as_bytes(),
        Err(_) => false,
    }
}
