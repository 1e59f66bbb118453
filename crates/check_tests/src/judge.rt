// A judge of blocks, who reads a whole blob before anything else. Of two flaws it names the one that comes first: blobs in
// the order in which directories list them, level by level, and a blob's nodes before what the blob says.
use crate::blocks::{Disk, NONE};
use crate::entries::{DIRECTORY, FILE, entry_in, front_of};
use crate::nodes::{most, parts_of};
use block_id::BlockId;
use std::alloc::Global;
use std::mem;
use std::test::Fail;

/// More blocks, and more blobs, than any disk here has.
const MOST: u32 = 1_000_000;

/// What is wrong, and the block that is named.
type Found = Option<(&'static str, BlockId)>;

/// A node that is needed: its id, its level unless it is a blob's root, and whether no byte may be missing.
type Wanted = (BlockId, Option<u8>, bool);

/// A blob that something refers to.
#[derive(Drop)]
struct Blob {
    id: BlockId,
    kind: u8,
    parent: BlockId,
    /// The names on the way from the root, with a slash before each.
    path: Vec<u8>,
}

/// What the judge knows so far.
#[derive(Drop)]
pub struct Judge {
    blobs: Vec<Blob>,
    /// Each block that was needed, and the number of its blob.
    owned: Vec<(BlockId, usize)>,
    /// What is still wanted of the blob that is read, the next node last.
    wants: Vec<Wanted>,
    /// The bytes of that blob so far.
    bytes: Vec<u8>,
    /// What is wrong first.
    pub flaw: Found,
}

/// Whether a list of at most 2^40 bytes has a tree of this depth: one that a tree with one level less has no room for.
fn is_low(payload: usize, depth: u8) -> bool {
    let mut below = most(payload, 0) as u64;
    for _ in 1..depth {
        below = below.saturating_mul(most(payload, 1) as u64);
    }
    depth == 0 || below < 1_099_511_627_776
}

/// Whether a node of this depth and so many bytes or children is what is needed.
fn serves(payload: usize, wanted: Wanted, depth: u8, count: usize) -> bool {
    let (_, level, full) = wanted;
    match level {
        None => depth == 0 || count >= 2 && is_low(payload, depth),
        Some(level) => depth == level && count > 0 && (!full || count == most(payload, depth)),
    }
}

impl Judge {
    /// The blob that owns a block.
    fn owner(&self, id: &BlockId) -> Option<usize> {
        for (owned, blob) in &self.owned {
            if *owned == *id {
                return Some(*blob);
            }
        }
        None
    }

    /// Wants the children of a node before all else, the first of them in front.
    fn want(&mut self, depth: u8, contents: &[u8], full: bool) -> Result<(), Fail> {
        let level = Some(depth.saturating_sub(1));
        let mut full = full;
        for piece in contents.rchunks(16) {
            if let Some((id, _)) = piece.split_first_chunk::<16>() {
                self.wants.push((BlockId(*id), level, full))?;
            }
            full = true;
        }
        Ok(())
    }

    /// Takes a node of the blob of this number.
    fn take(&mut self, disk: &Disk, number: usize, wanted: Wanted) -> Result<Found, Fail> {
        let (id, _, full) = wanted;
        let Some(text) = disk.text(&id) else {
            return Ok(Some(("not-live", id)));
        };
        if self.owner(&id).is_some() {
            return Ok(Some(("twice", id)));
        }
        self.owned.push((id, number))?;
        match parts_of(text) {
            Some((depth, count, contents)) if serves(disk.payload, wanted, depth, count) => {
                if depth > 0 {
                    self.want(depth, contents, full)?;
                } else {
                    self.bytes.extend_from_slice(contents)?;
                }
                Ok(None)
            }
            _ => Ok(Some(("bad-node", id))),
        }
    }

    /// Reads the bytes of a blob, or some of them where something is wrong.
    fn read(&mut self, disk: &Disk, number: usize, id: BlockId) -> Result<Found, Fail> {
        self.wants.push((id, None, false))?;
        for _ in 0..MOST {
            let Some(wanted) = self.wants.pop() else {
                return Ok(None);
            };
            let found = self.take(disk, number, wanted)?;
            if found.is_some() {
                return Ok(found);
            }
        }
        Err(Fail::from("too many nodes"))
    }

    /// The path of a name in the directory of this number.
    fn path_in(&self, alloc: Global, number: usize, name: &[u8]) -> Result<Vec<u8>, Fail> {
        let mut path = Vec::new(alloc);
        if let Some(directory) = self.blobs.get(number) {
            path.extend_from_slice(&directory.path)?;
        }
        path.push(b'/')?;
        path.extend_from_slice(name)?;
        Ok(path)
    }

    /// Refers to the blobs of the entries of the directory of this number. Whether the body has entries, by rising names.
    fn list(
        &mut self,
        alloc: Global,
        number: usize,
        parent: BlockId,
        body: &[u8],
    ) -> Result<bool, Fail> {
        let mut rest = body;
        let mut last: &[u8] = &[];
        for _ in 0..MOST {
            if rest.is_empty() {
                return Ok(body.len() <= 67_108_864);
            }
            let Some((kind, name, id, after)) = entry_in(rest) else {
                return Ok(false);
            };
            if name.cmp(&last).is_le() {
                return Ok(false);
            }
            let path = self.path_in(alloc, number, name)?;
            self.blobs.push(Blob {
                id,
                kind,
                parent,
                path,
            })?;
            last = name;
            rest = after;
        }
        Err(Fail::from("too many entries"))
    }

    /// Judges a blob, of this id, kind and parent, by its bytes.
    fn judge_bytes(
        &mut self,
        alloc: Global,
        number: usize,
        blob: (BlockId, u8, BlockId),
        bytes: &[u8],
    ) -> Result<Found, Fail> {
        let (id, kind, parent) = blob;
        let fits = match front_of(bytes) {
            Some((said, _, _)) if said != kind => false,
            Some((_, above, _)) if above != parent => return Ok(Some(("parent", id))),
            Some((DIRECTORY, _, body)) => self.list(alloc, number, id, body)?,
            Some((FILE, _, body)) => body.len() <= 68_719_476_736,
            Some((_, _, body)) => !body.is_empty() && body.len() <= 4_095 && !body.contains(&0),
            None => false,
        };
        Ok(if fits { None } else { Some(("bad-blob", id)) })
    }

    /// The block with the least id that nothing refers to.
    fn unowned(&self, disk: &Disk) -> Found {
        let mut least: Found = None;
        for (id, _) in &disk.blocks {
            if self.owner(id).is_none() {
                least = match least {
                    Some((word, known)) if known < *id => Some((word, known)),
                    _ => Some(("unowned", *id)),
                };
            }
        }
        least
    }

    /// Reads and judges each blob that something refers to, from the root on.
    fn judge_all(&mut self, alloc: Global, disk: &Disk) -> Result<Found, Fail> {
        for number in 0..MOST as usize {
            let blob = match self.blobs.get(number) {
                Some(blob) => (blob.id, blob.kind, blob.parent),
                None => return Ok(self.unowned(disk)),
            };
            let mut found = self.read(disk, number, blob.0)?;
            if found.is_none() {
                let bytes = mem::replace(&mut self.bytes, Vec::new(alloc));
                found = self.judge_bytes(alloc, number, blob, &bytes)?;
            }
            if found.is_some() {
                return Ok(found);
            }
        }
        Err(Fail::from("too many blobs"))
    }

    /// The path of the blob that a block belongs to, with a slash before each name.
    pub fn path(&self, id: &BlockId) -> Option<&[u8]> {
        match self.blobs.get(self.owner(id)?) {
            Some(blob) => Some(&blob.path),
            None => None,
        }
    }
}

/// Judges a disk from its root on.
pub fn judged(alloc: Global, disk: &Disk) -> Result<Judge, Fail> {
    let mut judge = Judge {
        blobs: Vec::new(alloc),
        owned: Vec::new(alloc),
        wants: Vec::new(alloc),
        bytes: Vec::new(alloc),
        flaw: None,
    };
    judge.blobs.push(Blob {
        id: disk.root,
        kind: DIRECTORY,
        parent: NONE,
        path: Vec::new(alloc),
    })?;
    judge.flaw = judge.judge_all(alloc, disk)?;
    Ok(judge)
}
