// Attributes of a table's rows, read and set.
ghost use Rattle.std.specs.Prelude.{◌≡◌, ◌≤◌, ◌∷◌, ◌++◌, [], IfOk, OnOk, OnErr, Some};
ghost use Rattle.std.specs.FinMap.{get};
ghost use Rattle.fs_model.specs.declared.limits.TheConstants.{MAX_MODE};
ghost use Rattle.fs_model.specs.Tree.{upward};
ghost use Rattle.host_attributes.specs.Attributes.{AreWithin, IsSet, attr_in, rows_in, set_onto};
ghost use Rattle.memory_host_folder.specs.Told.{told_by};

use crate::table_rows::copied;
use block_id::Memory;
use fs_model::{Attr, MAX_MODE, Name, Path};
use host_attributes::AttributedRow;
use outside::GetFail;
use plain_rows::Table;
use std::alloc::Global;

/// The path of this name in a directory.
fn child_of(alloc: Global, path: &Path, name: &Name) -> Result<Path, Memory>
    ensures { IfOk result (λ child. child ≡ path.now ++ name.now ∷ []) }
{
    let mut child = Path::root(alloc);
    for part in path.names() {
        child.push(part.try_clone()?)?;
    }
    child.push(name.try_clone()?)?;
    Ok(child)
}

/// The row of this name in a directory. A mode beyond its limit is a fault.
fn attributed_row(
    alloc: Global,
    table: &Table,
    path: &Path,
    name: &Name,
) -> Result<AttributedRow, GetFail>
    ensures name { IfOk result (λ row. row.name ≡ name.now) }
    ensures attr { IfOk result (λ row. attr_in (get table.now (upward (path.now ++ name.now ∷ []))) ≡ Some row.attr) }
    ensures within { IfOk result (λ row. row.attr.mode ≤ MAX_MODE) }
{
    let (child, name) = match (child_of(alloc, path, name), name.try_clone()) {
        (Ok(child), Ok(name)) => (child, name),
        _ => return Err(GetFail::Memory),
    };
    match table.row(child.names()) {
        Some((attr, _)) if attr.mode <= MAX_MODE => Ok(AttributedRow { name, attr }),
        _ => Err(GetFail::Failed),
    }
}

/// The rows of a directory with their attributes, by increasing names.
pub fn attributed_rows(
    alloc: Global,
    table: &Table,
    path: &Path,
) -> Result<Vec<AttributedRow>, GetFail>
    ensures ok { IfOk result (λ rows. rows.items ≡ rows_in table.now path.now) }
    ensures within { IfOk result (λ rows. AreWithin rows.items) }
{
    let listed = match table.list(alloc, path.names()) {
        Ok(listed) => listed,
        Err(Memory) => return Err(GetFail::Memory),
    };
    let mut rows = Vec::new(alloc);
    for row in &listed {
        match attributed_row(alloc, table, path, &row.name) {
            Ok(row) => match rows.push(row) {
                Ok(()) => {}
                Err(_) => return Err(GetFail::Memory),
            },
            Err(fail) => return Err(fail),
        }
    }
    Ok(rows)
}

/// The attributes with the mode, the owner and the two moments of others.
fn set_onto(old: Attr, new: Attr) -> Attr
    ensures { result ≡ set_onto old new }
{
    Attr {
        kind: old.kind,
        ctime: old.ctime,
        ..new
    }
}

/// Sets the attributes of a row that isn't the root.
pub fn dress(alloc: Global, table: &mut Table, path: &Path, attr: Attr) -> Result<(), GetFail>
    ensures ok { OnOk result (IsSet (Some table.old) (Some table.new) path.now attr) }
    ensures err { OnErr result (table.new ≡ table.old) }
    ensures same { told_by table.new ≡ told_by table.old }
{
    let names = path.names();
    if names.is_empty() {
        return Err(GetFail::Failed);
    }
    let (old, bytes) = match table.row(names) {
        Some((old, bytes)) => (old, copied(alloc, bytes)),
        None => return Err(GetFail::Failed),
    };
    match bytes {
        Ok(bytes) => {
            table.set(names, set_onto(old, attr), bytes);
            Ok(())
        }
        Err(Memory) => Err(GetFail::Memory),
    }
}
