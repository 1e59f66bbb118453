// The blobs that a directory names.

use block_id::{BlockId, Memory};
use dir_entries::{Entry, decode_entries};
use fs_blobs::{HEADER_LEN, read_header};
use fs_model::Kind;
use std::alloc::Global;

/// The bytes of a blob that is read from its front on, as long as it is a directory.
#[derive(Drop)]
pub(crate) struct Body {
    bytes: Vec<u8>,
    is_other: bool,
}

impl Body {
    /// No bytes yet.
    pub fn new(alloc: Global) -> Body {
        Body {
            bytes: Vec::new(alloc),
            is_other: false,
        }
    }

    /// Takes the bytes of one leaf more.
    pub fn take(&mut self, leaf: &[u8]) -> Result<(), Memory> {
        if self.bytes.is_empty() && !is_directory(leaf) {
            self.is_other = true;
        }
        if !self.is_other {
            self.bytes.extend_from_slice(leaf)?;
        }
        Ok(())
    }

    /// Puts the blobs of the entries behind the others; none where these are no entries.
    pub fn names(&self, alloc: Global, blobs: &mut Vec<BlockId>) -> Result<(), Memory> {
        match self.bytes.split_first_chunk::<HEADER_LEN>() {
            None => Ok(()),
            Some((_, body)) => match decode_entries(alloc, body)? {
                None => Ok(()),
                Some(entries) => push_blobs(&entries, blobs),
            },
        }
    }
}

fn is_directory(front: &[u8]) -> bool {
    match read_header(front) {
        Some(header) => header.kind == Kind::Directory,
        None => false,
    }
}

fn push_blobs(entries: &[Entry], blobs: &mut Vec<BlockId>) -> Result<(), Memory> {
    for entry in entries {
        blobs.push(entry.blob)?;
    }
    Ok(())
}
