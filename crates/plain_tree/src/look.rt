// The look-up of a path.
ghost use Rattle.std.specs.Prelude.{◌≡◌, IfOk, IfErr, Some};
ghost use Rattle.fs_model.specs.Tree.{upward, IsWellFormed};
ghost use Rattle.fs_model.specs.LookUp.{Found, look};
ghost use Rattle.plain_tree.specs.Sights.{IsFileAt, seen_of, refusal_of, file_refusal};

use fs_model::{Attr, FsError, Kind, Name};
use plain_rows::Table;

/// What a look-up gives: a row, that the path is free, or an error.
#[derive(Clone, Copy)]
pub enum LookUp<'a> {
    Found(Attr, &'a [u8]),
    Free,
    Bad(FsError),
}

/// Looks a path up: it has a row, or its parent's look-up tells.
pub fn look_up<'a>(table: &'a Table, names: &[Name]) -> LookUp<'a>
    requires { IsWellFormed table.now }
    ensures { look table.now (upward names.now) ≡ seen_of result }
{
    match table.row(names) {
        Some((attr, bytes)) => return LookUp::Found(attr, bytes),
        None => {}
    }
    if names.is_empty() {
        unreachable!();
    }
    let last = names.len() - 1;
    match look_up(table, &names[..last]) {
        LookUp::Found(attr, _) => match attr.kind {
            Kind::Directory => LookUp::Free,
            Kind::File => LookUp::Bad(FsError::NotDirectory),
            Kind::Link => LookUp::Bad(FsError::NotDirectory),
        },
        LookUp::Free => LookUp::Bad(FsError::NoEntry),
        LookUp::Bad(error) => LookUp::Bad(error),
    }
}

/// The attributes and the bytes of a path's row, or why there is none.
pub fn row_of<'a>(table: &'a Table, names: &[Name]) -> Result<(Attr, &'a [u8]), FsError>
    requires { IsWellFormed table.now }
    ensures found { IfOk result (λ row. look table.now (upward names.now) ≡ Found (record { attr = row.0; bytes = row.1.now })) }
    ensures refused { IfErr result (λ e. refusal_of (look table.now (upward names.now)) ≡ Some e) }
{
    match look_up(table, names) {
        LookUp::Found(attr, bytes) => Ok((attr, bytes)),
        LookUp::Free => Err(FsError::NoEntry),
        LookUp::Bad(error) => Err(error),
    }
}

/// The attributes and the length of a path's file, or why its content isn't touched.
pub fn file_of(table: &Table, names: &[Name]) -> Result<(Attr, u64), FsError>
    requires { IsWellFormed table.now }
    ensures found { IfOk result (λ f. IsFileAt table.now (upward names.now) f.0 f.1) }
    ensures refused { IfErr result (λ e. file_refusal (look table.now (upward names.now)) ≡ Some e) }
{
    let (attr, bytes) = match row_of(table, names) {
        Ok(row) => row,
        Err(error) => return Err(error),
    };
    match attr.kind {
        Kind::Directory => Err(FsError::IsDirectory),
        Kind::File => Ok((attr, bytes.len() as u64)),
        Kind::Link => Err(FsError::Invalid),
    }
}
