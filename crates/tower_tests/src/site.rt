// A directory and a local record in memory, between runs of a client of one file system.

use crate::words::block;
use memory_outside::{MemoryKeeper, MemoryVault};
use outside::{Change, FileName, Pending};
use std::alloc::Global;
use std::test::Fail;

/// What a client finds as it begins and leaves as it ends, and copies of files that were noted.
#[derive(Drop)]
pub(crate) struct Site {
    pub(crate) vault: MemoryVault,
    pub(crate) keeper: MemoryKeeper,
    pub(crate) noted: Vec<Pending>,
}

/// The front of a record that takes files of format 2 alone.
pub(crate) const NEWER: &[u8] = b"cryfs.localstate;2\0\0\x02";

/// The front of a record of the older form, which takes files of both formats.
pub(crate) const OLDER: &[u8] = b"cryfs.localstate;1\0\0";

/// An empty directory, and the record of client 1 that knows no block, with these bytes at its front.
pub(crate) fn begun(alloc: Global, front: &[u8]) -> Result<Site, Fail> {
    let mut record = front.to_vec(alloc)?;
    record.extend_from_slice(&[0x11; 80])?;
    record.extend_from_slice(&[1, 0, 0, 0])?;
    record.extend_from_slice(&[0; 16])?;
    Ok(Site {
        vault: MemoryVault::new(alloc),
        keeper: MemoryKeeper::new(alloc, Some(record), Vec::new(alloc)),
        noted: Vec::new(alloc),
    })
}

/// The file of the block of this letter.
pub(crate) fn file<'a>(site: &'a Site, letter: &str) -> Result<&'a [u8], Fail> {
    let name = FileName::Block(block(letter)?);
    match memory_outside::pending_list::lookup(site.vault.files(), &name) {
        Some(Change::Bytes(bytes)) => Ok(bytes.as_slice()),
        _ => Err(Fail::new(format_args!("{letter} has no file"))),
    }
}
