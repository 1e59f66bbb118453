// Rows of a table, seen as those of a folder.
ghost use Rattle.std.specs.Prelude.{◌≡◌, ◌∷◌, ◌++◌, ◌-◌, ◌<◌, ◌≤◌, ℕ, List, [], true, length, take, drop, map, All, IfOk, OnOk, OnErr, None, Some};
ghost use Rattle.std.specs.Option.{option_map};
ghost use Rattle.std.specs.FinMap.{empty, get, insert, find};
ghost use Rattle.fs_model.specs.declared.attr.Kind.TheVariants.{File};
ghost use Rattle.fs_model.specs.Tree.{name_cmp, empty_tree};
ghost use Rattle.host_attributes.specs.host_folder.Folders.{HasTarget, IsHostTree, RowsRise, directory_row, row_pair, kind_in};
ghost use Rattle.fs_model.specs.Names.{IsName};
ghost use Rattle.memory_host_folder.specs.States.{is_file, HasPlace};
ghost use Rattle.memory_host_folder.specs.Told.{told_by};

use block_id::Memory;
use fs_model::{Attr, Kind, Name, RowList, root_attr};
use plain_rows::Table;
use std::alloc::Global;

/// The root alone.
pub fn root_table(alloc: Global) -> Table
    ensures rows { result ≡ empty_tree }
    ensures value { told_by result ≡ insert empty [] directory_row }
    ensures tree { IsHostTree (told_by result) }
{
    Table::new(alloc)
}

/// The kind and the bytes of a path's row.
pub fn row_at<'a>(table: &'a Table, names: &[Name]) -> Option<(Kind, &'a [u8])>
    ensures { option_map (λ row. record { kind = row.0; bytes = row.1.now }) result ≡ get (told_by table.now) names.now }
{
    match table.row(names) {
        Some((attr, bytes)) => Some((attr.kind, bytes)),
        None => None,
    }
}

/// Kind and name of each child, by increasing names.
pub fn rows_of(alloc: Global, table: &Table, names: &[Name]) -> Result<RowList, Memory>
    ensures order { IfOk result RowsRise }
    ensures each { IfOk result (λ rows. (n : List ℕ) → find name_cmp n (map row_pair rows) ≡ kind_in (get (told_by table.now) (names.now ++ n ∷ []))) }
{
    let rows = table.list(alloc, names)?;
    Ok(RowList::new(rows))
}

/// Attributes of this kind.
fn attr_of(kind: Kind) -> Attr
    ensures { result.kind ≡ kind }
{
    Attr {
        kind,
        ..root_attr()
    }
}

/// A new row, in a directory that isn't past its limit.
pub fn add_row(table: &mut Table, names: &[Name], kind: Kind, bytes: Vec<u8>) -> Result<(), Memory>
    requires tree { IsHostTree (told_by table.old) }
    requires names { All IsName names.now }
    requires target { HasTarget kind bytes.items }
    requires place { HasPlace table.old names.now }
    ensures ok { OnOk result (told_by table.new ≡ insert (told_by table.old) names.now (record { kind = kind; bytes = bytes.items })) }
    ensures err { OnErr result (table.new ≡ table.old) }
    ensures tree { IsHostTree (told_by table.new) }
    ensures free { get (told_by table.old) names.now ≡ None }
{
    table.insert(names, attr_of(kind), bytes)
}

/// The same bytes.
pub fn copied(alloc: Global, bytes: &[u8]) -> Result<Vec<u8>, Memory>
    ensures { IfOk result (λ copy. copy.items ≡ bytes.now) }
{
    let copy = bytes.to_vec(alloc)?;
    Ok(copy)
}

/// The bytes of a file, with more behind them.
pub fn longer(alloc: Global, first: &[u8], more: &[u8]) -> Result<Vec<u8>, Memory>
    ensures { IfOk result (λ bytes. bytes.items ≡ first.now ++ more.now) }
{
    let mut bytes = first.to_vec(alloc)?;
    bytes.extend_from_slice(more)?;
    Ok(bytes)
}

/// Other bytes of a file.
pub fn set_file(table: &mut Table, names: &[Name], bytes: Vec<u8>)
    requires tree { IsHostTree (told_by table.old) }
    requires there { is_file (get (told_by table.old) names.now) ≡ true }
    ensures set { told_by table.new ≡ insert (told_by table.old) names.now (record { kind = File; bytes = bytes.items }) }
    ensures tree { IsHostTree (told_by table.new) }
{
    table.set(names, attr_of(Kind::File), bytes);
}

/// Puts bytes of the file from this place on into the piece. How many.
pub fn copy_from(bytes: &[u8], from: u64, piece: &mut [u8]) -> usize
    ensures bound { result ≤ length piece.old }
    ensures few { result ≤ length bytes.now - from }
    ensures read { take result piece.new ≡ take result (drop from bytes.now) }
    ensures end { result ≡ 0 → 0 < length piece.old → length bytes.now ≤ from }
{
    let start = from.min(bytes.len() as u64) as usize;
    let rest = &bytes[start..];
    let n = rest.len().min(piece.len());
    piece[..n].copy_from_slice(&rest[..n]);
    n
}
