// Commands on the tree that blobs show, whatever keeps them.
ghost use Rattle.std.specs.Prelude.{◌≡◌, ◌≤◌, IfOk};
ghost use Rattle.path_contents.specs.store_outcome.Outcome.{Outcome};
ghost use Rattle.fs_model.specs.Fitting.{IsFitting};
ghost use Rattle.fs_model.specs.Laws.{OnlyLooks};
ghost use Rattle.fs_model.specs.Step.{step};
ghost use Rattle.path_contents.specs.path_walks.Showing.{BlobsShow, Performed};
ghost use Rattle.path_layer.specs.Replies.{IsReplyOf};
ghost use Rattle.path_layer.specs.Sparing.{IsSparingIn};

use blob_store::blob_api::Blobs;
use block_id::{BlockId, Fail};
use fs_model::{AttrChange, Command, Moment, Reply};
use path_contents::{list, read, read_link, set_attributes, stat, truncate, write};
use path_rows::{make_directory, make_file, make_link, move_row, remove_directory, remove_file};
use std::alloc::Global;

/// One command on the tree that the blobs show.
pub fn perform_on_blobs<B: Blobs>(
    alloc: Global,
    b: &mut B,
    root: &BlockId,
    now: Moment,
    command: &Command,
) -> Result<Reply, Fail>
    requires intact { B.meanings.intact b.old }
    requires fits { IsFitting command.now }
    ensures outcome { Outcome B.meanings (BlobsShow B.holdings b.old root.now.0) b.old b.new result
        (λ n r. Performed B.holdings b.new root.now.0 (step n.tree now command.now) r) }
    // Whatever it answers.
    ensures sparing { (n : BlobsShow B.holdings b.old root.now.0) → B.meanings.sound b.old → B.meanings.forgeries b.new ≤ B.meanings.forgeries b.old
        → IsSparingIn B.holdings b.old b.new n.tree command.now }
    // Whatever the blobs show.
    ensures variant { IfOk result (IsReplyOf command.now) }
    ensures looks { OnlyLooks command.now → B.holdings.changed b.new ≡ B.holdings.changed b.old }
{
    match command {
        Command::List(path) => list(alloc, b, root, path.names()),
        Command::Stat(path) => stat(alloc, b, root, path.names()),
        Command::Readlink(path) => read_link(alloc, b, root, path.names()),
        Command::Read(path, from, count) => read(alloc, b, root, path.names(), *from, *count),
        Command::Mkdir(path) => make_directory(alloc, b, root, path.names(), now),
        Command::Mkfile(path) => make_file(alloc, b, root, path.names(), now),
        Command::Symlink(target, path) => {
            let target = target.as_slice();
            make_link(alloc, b, root, path.names(), target, now)
        }
        Command::Rmdir(path) => remove_directory(alloc, b, root, path.names(), now),
        Command::Rm(path) => remove_file(alloc, b, root, path.names(), now),
        Command::Mv(from, to) => move_row(alloc, b, root, from.names(), to.names(), now),
        Command::Write(path, from, bytes) => {
            let bytes = bytes.as_slice();
            write(alloc, b, root, path.names(), *from, bytes, now)
        }
        Command::Truncate(path, len) => truncate(alloc, b, root, path.names(), *len, now),
        Command::Chmod(path, mode) => {
            let change = AttrChange::Mode(*mode);
            set_attributes(alloc, b, root, path.names(), change, now)
        }
        Command::Chown(path, uid, gid) => {
            let change = AttrChange::Owner(*uid, *gid);
            set_attributes(alloc, b, root, path.names(), change, now)
        }
        Command::Utime(path, atime, mtime) => {
            let change = AttrChange::Times(*atime, *mtime);
            set_attributes(alloc, b, root, path.names(), change, now)
        }
        Command::Sync => Ok(Reply::Done),
    }
}
