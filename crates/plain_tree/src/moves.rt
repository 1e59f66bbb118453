// Moving all that is at or below a path.
ghost use Rattle.std.specs.Prelude.{◌≡◌, ◌+◌, ◌≤◌, ◌++◌, ℕ, List, ◌∷◌, true, false, cond, is_some, IfOk, OnOk, OnErr, None};
ghost use Rattle.std.specs.FinMap as tree;
ghost use Rattle.std.specs.FinMap.{get};
ghost use Rattle.fs_model.specs.declared.limits.TheConstants.{MAX_ENTRIES};
ghost use Rattle.fs_model.specs.Tree.{Row, is_root, last_name, parent, same_path, upward, IsWellFormed};
ghost use Rattle.fs_model.specs.Tree as model;
ghost use Rattle.fs_model.specs.LookUp.{Found, look};
ghost use Rattle.fs_model.specs.Move as step_move;
ghost use Rattle.fs_model.specs.Step as step;
ghost use Rattle.plain_rows.specs.Moves.{IsBelowMoved};
ghost use Rattle.plain_tree.specs.Answers.{IsAnswer};
ghost use Rattle.plain_tree.specs.Moves.{IsMove, held};

use crate::change::{same_attr, touch_above};
use crate::edit::{has_child, is_directory};
use crate::look::{LookUp, look_up, row_of};
use block_id::Memory;
use fs_model::{Attr, FsError, Kind, MAX_ENTRIES, Moment, Name, Reply, is_above, same_names};
use plain_rows::{Table, name_size};

/// The bytes of the entry that leaves `to`'s parent.
fn size_left(from: &[Name], to: &[Name]) -> u64
    requires from { is_root (upward from.now) ≡ false }
    requires to { is_root (upward to.now) ≡ false }
    ensures { result ≡ cond (same_path (parent (upward from.now)) (parent (upward to.now))) (model.entry_size (last_name (upward from.now))) 0 }
{
    if from.is_empty() {
        unreachable!();
    }
    if to.is_empty() {
        unreachable!();
    }
    let from_last = from.len() - 1;
    let to_last = to.len() - 1;
    if same_names(&from[..from_last], &to[..to_last]) {
        name_size(&from[from_last])
    } else {
        0
    }
}

/// The bytes of the entries of a path's parent, with one for the path itself.
fn size_with(table: &Table, to: &[Name], replaces: bool) -> u64
    requires formed { IsWellFormed table.now }
    requires to { is_root (upward to.now) ≡ false }
    ensures value { result ≡ model.directory_size table.now (parent (upward to.now)) + cond replaces 0 (model.entry_size (last_name (upward to.now))) }
{
    if to.is_empty() {
        unreachable!();
    }
    let last = to.len() - 1;
    let size = table.size(&to[..last]);
    if replaces {
        size
    } else {
        size + name_size(&to[last])
    }
}

/// A row without bytes at the path, where there is none.
fn hold(table: &mut Table, to: &[Name], attr: Attr, replaces: bool) -> Result<(), Memory>
    requires named { is_root (upward to.now) ≡ false }
    requires target { is_some (get table.old (upward to.now)) ≡ replaces }
    requires room { model.directory_size table.old (parent (upward to.now)) ≤ MAX_ENTRIES }
    ensures ok { OnOk result (table.new ≡ held table.old (upward to.now) attr replaces) }
    ensures err { OnErr result (table.new ≡ table.old) }
{
    if replaces {
        return Ok(());
    }
    let none = Vec::new(table.allocator());
    table.insert(to, attr, none)
}

/// That row goes again.
fn let_go(table: &mut Table, to: &[Name], replaces: bool)
    requires named { is_root (upward to.now) ≡ false }
    requires there { is_some (get table.old (upward to.now)) ≡ true }
    ensures { table.new ≡ cond replaces table.old (tree.remove table.old (upward to.now)) }
{
    if !replaces {
        table.remove(to);
    }
}

/// The attributes after a move.
fn arrived(attr: Attr, now: Moment) -> Attr
    ensures { result ≡ record attr { ctime = now } }
{
    Attr { ctime: now, ..attr }
}

/// All that is below `from` moves below `to`. There is nothing below a file or a link.
fn move_below(table: &mut Table, from: &[Name], to: &[Name], kind: Kind) -> Result<(), Memory>
    requires bare { (s : model.Path) (n : List ℕ) → get table.old (n ∷ (s ++ upward to.now)) ≡ None }
    requires leaf { model.is_directory kind ≡ false → (s : model.Path) (n : List ℕ) → get table.old (n ∷ (s ++ upward from.now)) ≡ None }
    ensures ok { OnOk result (IsBelowMoved table.old table.new (upward from.now) (upward to.now)) }
    ensures err { OnErr result (table.new ≡ table.old) }
{
    if is_directory(kind) {
        table.rename_below(from, to)
    } else {
        Ok(())
    }
}

/// The row at `from` and all that is below it go to `to`. Memory is taken first.
fn carry(
    table: &mut Table,
    from: &[Name],
    to: &[Name],
    attr: Attr,
    replaces: bool,
    now: Moment,
) -> Result<(), Memory>
    requires formed { IsWellFormed table.old }
    requires moves { (row : Row) × (row.attr ≡ attr) × IsMove table.old (upward from.now) (upward to.now) row replaces }
    ensures ok { OnOk result ((row : Row) → IsMove table.old (upward from.now) (upward to.now) row replaces → table.new ≡ step.moved_tree table.old now (upward from.now) (upward to.now) row) }
    ensures err { OnErr result (table.new ≡ table.old) }
{
    hold(table, to, same_attr(&attr), replaces)?;
    match move_below(table, from, to, attr.kind) {
        Ok(()) => {}
        Err(Memory) => {
            let_go(table, to, replaces);
            return Err(Memory);
        }
    }
    let bytes = table.remove(from);
    table.set(to, arrived(attr, now), bytes);
    Ok(())
}

/// Moves the rows, where nothing but the directory's limit refuses it.
fn relocate(
    table: &mut Table,
    from: &[Name],
    to: &[Name],
    attr: Attr,
    replaces: bool,
    now: Moment,
) -> Result<Reply, Memory>
    requires formed { IsWellFormed table.old }
    requires moves { (row : Row) × (row.attr ≡ attr) × IsMove table.old (upward from.now) (upward to.now) row replaces }
    ensures ok { IfOk result (λ reply. (row : Row) → IsMove table.old (upward from.now) (upward to.now) row replaces → IsAnswer table.new reply (step.moved_unless_large table.old now (upward from.now) (upward to.now) (step.moved_tree table.old now (upward from.now) (upward to.now) row))) }
    ensures err { OnErr result (table.new ≡ table.old) }
{
    let size = size_with(table, to, replaces);
    if size - size_left(from, to) > MAX_ENTRIES {
        return Ok(Reply::Error(FsError::TooLarge));
    }
    carry(table, from, to, attr, replaces, now)?;
    touch_above(table, from, now);
    touch_above(table, to, now);
    Ok(Reply::Done)
}

/// Every path that has the prefix `from` gets the prefix `to`.
pub fn move_rows(
    table: &mut Table,
    from: &[Name],
    to: &[Name],
    now: Moment,
) -> Result<Reply, Memory>
    requires { IsWellFormed table.old }
    ensures ok { IfOk result (λ reply. IsAnswer table.new reply (step.unless_root table.old (upward from.now) (step.unless_root table.old (upward to.now) (step.moved_from table.old now (upward from.now) (upward to.now) (look table.old (upward from.now)))))) }
    ensures err { OnErr result (table.new ≡ table.old) }
{
    if from.is_empty() || to.is_empty() {
        return Ok(Reply::Error(FsError::Busy));
    }
    let (attr, _) = match row_of(table, from) {
        Ok(row) => row,
        Err(error) => return Ok(Reply::Error(error)),
    };
    if is_above(from, to) {
        return Ok(Reply::Error(FsError::Invalid));
    }
    let onto = match look_up(table, to) {
        LookUp::Found(onto, _) => onto.kind,
        LookUp::Free => return relocate(table, from, to, attr, false, now),
        LookUp::Bad(error) => return Ok(Reply::Error(error)),
    };
    move_onto(table, from, to, attr, onto, now)
}

/// Moves onto a row of the kind `onto`.
fn move_onto(
    table: &mut Table,
    from: &[Name],
    to: &[Name],
    attr: Attr,
    onto: Kind,
    now: Moment,
) -> Result<Reply, Memory>
    requires formed { IsWellFormed table.old }
    requires named { is_root (upward from.now) ≡ false }
    requires to_named { is_root (upward to.now) ≡ false }
    requires from { (row : Row) × (row.attr ≡ attr) × (look table.old (upward from.now) ≡ Found row) }
    requires to { (row : Row) × (row.attr.kind ≡ onto) × (look table.old (upward to.now) ≡ Found row) }
    requires above { step_move.is_above (upward from.now) (upward to.now) ≡ false }
    ensures ok { IfOk result (λ reply. (row : Row) → look table.old (upward from.now) ≡ Found row → IsAnswer table.new reply (step.moved_to table.old now (upward from.now) (upward to.now) row (look table.old (upward to.now)))) }
    ensures err { OnErr result (table.new ≡ table.old) }
{
    if same_names(from, to) {
        return Ok(Reply::Done);
    }
    match (is_directory(attr.kind), is_directory(onto)) {
        (true, false) => Ok(Reply::Error(FsError::NotDirectory)),
        (false, true) => Ok(Reply::Error(FsError::IsDirectory)),
        (true, true) => {
            if has_child(table, to) {
                return Ok(Reply::Error(FsError::NotEmpty));
            }
            relocate(table, from, to, attr, true, now)
        }
        (false, false) => relocate(table, from, to, attr, true, now),
    }
}
