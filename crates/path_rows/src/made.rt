// A new row in a directory, with its blob.
ghost use Rattle.std.specs.Prelude.{◌≤◌, ◌∷◌, IfOk, length};
ghost use Rattle.std.specs.FinMap.{insert as with_row};
ghost use Rattle.path_walks.specs.store_outcome.Outcome.{Outcome};
ghost use Rattle.fs_model.specs.LookUp.{look};
ghost use Rattle.fs_model.specs.Step.{made};
ghost use Rattle.path_walks.specs.Midst.{ids_with};
ghost use Rattle.path_walks.specs.Showing.{IsShownBy, Performed};
ghost use Rattle.path_rows.specs.Changes.{Making, Adding};
ghost use Rattle.path_walks.specs.Replies.{IsChangeReply};

use block_id::{BlockId, Fail};
use fs_model::{Attr, ENTRY_SIZE, FsError, MAX_ENTRIES, MAX_MODE, MAX_TARGET, Moment, Name, Reply};
use path_walks::blob_api::Blobs;
use path_walks::dir_blob::insert_in;
use path_walks::dir_entries::Entry;
use path_walks::fs_blobs::{Header, new_blob};
use path_walks::{Folder, done, touch};
use std::alloc::Global;

/// A free name in a directory, whose body was read.
#[derive(Drop)]
pub struct Vacancy<'a> {
    pub dir: Folder<'a>,
    pub name: &'a Name,
    pub body: Vec<u8>,
}

/// A new row where its directory has room for its entry: its blob, and then its entry.
pub fn add_row<B: Blobs>(
    alloc: Global,
    b: &mut B,
    at: &Vacancy,
    attr: Attr,
    bytes: &[u8],
) -> Result<BlockId, Fail>
    requires intact { B.meanings.intact b.old }
    requires mode { attr.mode ≤ MAX_MODE }
    requires short { length bytes.now ≤ MAX_TARGET }
    ensures { Outcome B.meanings (Adding B.holdings b.old at.now.dir at.now.name.now at.now.body.items (record { attr = attr; bytes = bytes.now })) b.old b.new result
        (λ n id. IsShownBy B.holdings b.new n.making.root (with_row n.making.tree (at.now.name.now ∷ n.making.path) (record { attr = attr; bytes = bytes.now })) (ids_with n.making.ids (at.now.name.now ∷ n.making.path) id.0)) }
{
    let name = at.name.try_clone()?;
    let dir = at.dir.place.blob;
    let header = Header {
        kind: attr.kind,
        parent: dir,
    };
    let blob = new_blob(alloc, b, &header, bytes)?;
    insert_in(alloc, b, &dir, &at.body, &Entry { name, attr, blob })?;
    Ok(blob)
}

/// A new row of a directory in which the name is free, which is touched.
pub fn make_in<B: Blobs>(
    alloc: Global,
    b: &mut B,
    at: &Vacancy,
    attr: Attr,
    bytes: &[u8],
    now: Moment,
) -> Result<Reply, Fail>
    requires intact { B.meanings.intact b.old }
    requires dir_mode { at.now.dir.place.attr.mode ≤ MAX_MODE }
    requires mode { attr.mode ≤ MAX_MODE }
    requires short { length bytes.now ≤ MAX_TARGET }
    ensures variant { IfOk result IsChangeReply }
    ensures did { Outcome B.meanings (Making B.holdings b.old at.now.dir at.now.name.now at.now.body.items (record { attr = attr; bytes = bytes.now })) b.old b.new result
        (λ n r. Performed B.holdings b.new n.root (made n.tree now (at.now.name.now ∷ n.path) (record { attr = attr; bytes = bytes.now }) (look n.tree (at.now.name.now ∷ n.path))) r) }
{
    let size = at.body.len() as u64;
    if size > MAX_ENTRIES || size + ENTRY_SIZE + at.name.as_slice().len() as u64 > MAX_ENTRIES {
        return Ok(Reply::Error(FsError::TooLarge));
    }
    add_row(alloc, b, at, attr, bytes)?;
    done(touch(alloc, b, &at.dir, now))
}
