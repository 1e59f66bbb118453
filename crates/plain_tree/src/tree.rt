// The tree in memory.
ghost use Rattle.std.specs.Prelude.{◌≡◌, [], IfOk, OnOk, OnErr};
ghost use Rattle.fs_model.specs.Fitting.{IsFitting};
ghost use Rattle.fs_model.specs.declared.attr.Kind.TheVariants.{Link};
ghost use Rattle.fs_model.specs.Tree.{empty_tree, upward, IsWellFormed};
ghost use Rattle.fs_model.specs.LookUp.{look};
ghost use Rattle.fs_model.specs.Step as model;
ghost use Rattle.plain_tree.specs.Answers.{IsAnswer};

use crate::change::{set_attributes, truncate, write};
use crate::edit::{make, remove_directory, remove_file};
use crate::moves::move_rows;
use crate::read::{list, read, read_link, stat};
use block_id::Memory;
use fs_model::laws::keeps_well_formed;
use fs_model::{
    AttrChange, ByteText, Command, DIRECTORY_MODE, FILE_MODE, Kind, LINK_MODE, Moment, Name, Reply,
    new_attr,
};
use plain_rows::Table;
use std::alloc::Global;
use std::marker::Model;

/// A table of rows that is a tree.
#[derive(Drop)]
pub struct PlainTree {
    table: Table,
}

impl Model for PlainTree {
    ghost use Rattle.fs_model.specs.Tree.{Tree, IsWellFormed};
    ghost use Rattle.fs_model.specs.Codes.{tree_code};

    ghost Value = { Tree };

    ghost coded = { tree_code };

    ghost view = { λ t. t.table };

    ghost invariant = { λ t. IsWellFormed t.table };
}

impl PlainTree {
    /// The tree of the root alone.
    pub fn new(alloc: Global) -> PlainTree
        ensures { result ≡ empty_tree }
    {
        PlainTree {
            table: Table::new(alloc),
        }
    }

    /// One command: its reply, and the next tree. After `Memory` the tree is as before.
    pub fn step(&mut self, now: Moment, command: &Command) -> Result<Reply, Memory>
        requires { IsFitting command.now }
        ensures reply { IfOk result (λ reply. reply ≡ (model.step self.old now command.now).reply) }
        ensures tree { OnOk result (self.new ≡ (model.step self.old now command.now).tree) }
        ensures memory { OnErr result (self.new ≡ self.old) }
    {
        keeps_well_formed(now, command);
        step_table(&mut self.table, now, command)
    }
}

/// One command on a table.
fn step_table(table: &mut Table, now: Moment, command: &Command) -> Result<Reply, Memory>
    requires formed { IsWellFormed table.old }
    requires fits { IsFitting command.now }
    ensures ok { IfOk result (λ reply. IsAnswer table.new reply (model.step table.old now command.now)) }
    ensures err { OnErr result (table.new ≡ table.old) }
{
    match command {
        Command::Mkdir(path) => make_row(table, path.names(), Kind::Directory, DIRECTORY_MODE, now),
        Command::Mkfile(path) => make_row(table, path.names(), Kind::File, FILE_MODE, now),
        Command::Symlink(target, path) => make_link(table, target, path.names(), now),
        Command::Rmdir(path) => Ok(remove_directory(table, path.names(), now)),
        Command::Rm(path) => Ok(remove_file(table, path.names(), now)),
        Command::Mv(from, to) => move_rows(table, from.names(), to.names(), now),
        Command::Write(path, from, bytes) => {
            write(table, path.names(), *from, bytes.as_slice(), now)
        }
        Command::Truncate(path, len) => truncate(table, path.names(), *len, now),
        Command::Chmod(path, mode) => {
            Ok(set_attributes(table, path.names(), AttrChange::Mode(*mode), now))
        }
        Command::Chown(path, uid, gid) => {
            Ok(set_attributes(table, path.names(), AttrChange::Owner(*uid, *gid), now))
        }
        Command::Utime(path, atime, mtime) => {
            Ok(set_attributes(table, path.names(), AttrChange::Times(*atime, *mtime), now))
        }
        Command::Sync => Ok(Reply::Done),
        Command::List(path) => list(table.allocator(), table, path.names()),
        Command::Stat(path) => Ok(stat(table, path.names())),
        Command::Readlink(path) => read_link(table.allocator(), table, path.names()),
        Command::Read(path, from, count) => {
            read(table.allocator(), table, path.names(), *from, *count)
        }
    }
}

/// A new row without bytes.
fn make_row(
    table: &mut Table,
    names: &[Name],
    kind: Kind,
    mode: u32,
    now: Moment,
) -> Result<Reply, Memory>
    requires { IsWellFormed table.old }
    ensures ok { IfOk result (λ reply. IsAnswer table.new reply (model.made table.old now (upward names.now) (model.new_row kind mode now []) (look table.old (upward names.now)))) }
    ensures err { OnErr result (table.new ≡ table.old) }
{
    let bytes = Vec::new(table.allocator());
    make(table, names, new_attr(kind, mode, now), bytes, now)
}

/// A new link.
fn make_link(
    table: &mut Table,
    target: &ByteText,
    names: &[Name],
    now: Moment,
) -> Result<Reply, Memory>
    requires { IsWellFormed table.old }
    ensures ok { IfOk result (λ reply. IsAnswer table.new reply (model.made table.old now (upward names.now) (model.new_row Link LINK_MODE now target.now) (look table.old (upward names.now)))) }
    ensures err { OnErr result (table.new ≡ table.old) }
{
    let bytes = target.as_slice().to_vec(table.allocator())?;
    make(
        table,
        names,
        new_attr(Kind::Link, LINK_MODE, now),
        bytes,
        now,
    )
}
