// What a check says beside what the judge says.
use crate::blocks::{Disk, NONE};
use crate::judge::{Judge, judged};
use crate::stores::check_disk;
use block_id::BlockId;
use cryfs_check::check_walk::Flaw;
use cryfs_check::{Checked, Owners};
use fs_model::Path;
use std::alloc::Global;
use std::test::Fail;

/// A flaw in the words of stories, and the block that it names.
fn told(flaw: Flaw) -> (&'static str, BlockId) {
    match flaw {
        Flaw::BadNode(id) => ("bad-node", id),
        Flaw::BadBlob(id) => ("bad-blob", id),
        Flaw::Parent(id) => ("parent", id),
        Flaw::Twice(id) => ("twice", id),
        Flaw::NotLive(id) => ("not-live", id),
        Flaw::Unowned(id) => ("unowned", id),
    }
}

/// Whether a text has the names of a path, with a slash before each.
fn is_path(path: &Path, text: &[u8]) -> bool {
    let mut rest = text;
    for name in path.names() {
        let Some(after) = rest.strip_prefix(b"/") else {
            return false;
        };
        let Some(after) = after.strip_prefix(name.as_slice()) else {
            return false;
        };
        rest = after;
    }
    rest.is_empty()
}

/// Whether the block of this number has the path that the judge says.
fn owns_alike(alloc: Global, owners: &Owners, i: usize, judge: &Judge) -> Result<bool, Fail> {
    let (Some(id), Some(path)) = (owners.id(i), owners.path(alloc, i)?) else {
        return Ok(false);
    };
    match judge.path(&id) {
        Some(text) => Ok(is_path(&path, text)),
        None => Ok(false),
    }
}

/// Whether these are the owners of all blocks of the disk, as the judge says.
fn own_alike(alloc: Global, owners: &Owners, disk: &Disk, judge: &Judge) -> Result<bool, Fail> {
    for i in 0..owners.len() {
        if !owns_alike(alloc, owners, i, judge)? {
            return Ok(false);
        }
    }
    Ok(owners.len() == disk.blocks.len())
}

/// Whether this flaw is the one that the judge names.
fn is_named(flaw: Flaw, judge: &Judge) -> bool {
    let (word, id) = told(flaw);
    match judge.flaw {
        Some((said, named)) => said == word && named == id,
        None => false,
    }
}

/// Whether a check of a disk says what the judge says.
fn are_alike(alloc: Global, disk: &Disk, judge: &Judge) -> Result<bool, Fail> {
    match check_disk(alloc, disk)? {
        Checked::Yes(owners) => {
            Ok(judge.flaw.is_none() && own_alike(alloc, &owners, disk, judge)?)
        }
        Checked::No(flaw) => Ok(is_named(flaw, judge)),
    }
}

/// What both the judge and a check find wrong with a disk, or `fine`.
pub fn compare(alloc: Global, disk: &Disk) -> Result<(&'static str, BlockId), Fail> {
    let judge = judged(alloc, disk)?;
    if !are_alike(alloc, disk, &judge)? {
        return Err(Fail::from("the judge says otherwise"));
    }
    match judge.flaw {
        Some(flaw) => Ok(flaw),
        None => Ok(("fine", NONE)),
    }
}
