// The stored file system in a directory and a record in memory.

use crate::stored::{BLOCKS, CONFIG, OLDER, RECORD, WAITING};
use block_id::BlockId;
use memory_outside::{MemoryKeeper, MemoryVault};
use outside::{Change, FileName, Pending};
use std::alloc::Global;
use std::test::Fail;
use test_systems::{System, file};

/// The file of the block that has these digits, or this name: the root of the stored file system and its file `/docs/note`; the
/// root of a new one, and its child the first that a line made, where the random bytes are zeros.
pub fn block_of(name: &str) -> Result<FileName, Fail> {
    let digits = match name {
        "root" => "2E0435824AAF8B86DF5ED063B4777541",
        "note" => "D357D99CFA853FCECAC04D85D952D812",
        "new-root" => "00000000000000000000000000000001",
        "new-child" => "76B8E0ADA0F13D90405D6AE55386BD28",
        digits => digits,
    };
    match BlockId::from_name(digits.as_bytes()) {
        Some(id) => Ok(FileName::Block(id)),
        None => Err(Fail::new("these digits are no id")),
    }
}

/// These files and this record.
pub fn system_of(alloc: Global, files: Vec<Pending>, record: Vec<u8>) -> System {
    let mut vault = MemoryVault::new(alloc);
    vault.set_files(files);
    System {
        vault,
        keeper: MemoryKeeper::new(alloc, Some(record), Vec::new(alloc)),
    }
}

/// Adds a file of these digits.
fn add_file(
    alloc: Global,
    files: &mut Vec<Pending>,
    name: FileName,
    digits: &str,
) -> Result<(), Fail> {
    let bytes = hex::decode(alloc, digits)?;
    files.push(Pending {
        name,
        change: Change::Bytes(bytes),
    })?;
    Ok(())
}

/// Adds the files of these lines: in each the digits of an id, a blank, and the digits of the file.
fn add_blocks(alloc: Global, files: &mut Vec<Pending>, lines: &str) -> Result<(), Fail> {
    for line in lines.split('\n') {
        let (id, digits) = line.split_once(' ').ok_or("an id and its file")?;
        add_file(alloc, files, block_of(id)?, digits)?;
    }
    Ok(())
}

/// The stored files and the record that was stored after the second session, or after the third, when some of its files waited.
pub fn stored_system(alloc: Global, record: &str) -> Result<System, Fail> {
    let digits = if record == "waiting" { WAITING } else { RECORD };
    let mut files = Vec::new(alloc);
    add_file(alloc, &mut files, FileName::Config, CONFIG)?;
    add_blocks(alloc, &mut files, BLOCKS)?;
    Ok(system_of(alloc, files, hex::decode(alloc, digits)?))
}

/// The file of a block after the first session.
pub fn older_file_of(alloc: Global, name: &str) -> Result<Vec<u8>, Fail> {
    let mut files = Vec::new(alloc);
    add_blocks(alloc, &mut files, OLDER)?;
    file(alloc, &files, block_of(name)?)
}
