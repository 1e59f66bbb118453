// The stored files, seen and changed without a call.
ghost use Rattle.std.specs.Prelude.{◌≡◌, ◌∷◌, ◌++◌, [], IfOk, OnOk};
ghost use Rattle.block_id.specs.Contents.{zeros};
ghost use Rattle.outside.specs.Trace.{block as block_at};
ghost use Rattle.outside.specs.View.{at_of, bytes_of, change_of, list_of};
ghost use Rattle.memory_outside.specs.Vaults.{without};
ghost use Rattle.test_systems.specs.StoredFiles.{with_file};

use crate::system::System;
use block_id::BlockId;
use memory_outside::MemoryVault;
use memory_outside::pending_list::is_same;
use outside::{Change, FileName, Pending};
use std::alloc::{AllocError, Global};
use std::test::Fail;

/// The block of this number.
pub fn block(number: u8) -> FileName
    ensures { at_of result ≡ block_at (zeros 15 ++ number ∷ []) }
{
    let mut id = [0; 16];
    id[15] = number;
    FileName::Block(BlockId(id))
}

/// The first id of a line whose seed is of zeros: the first bytes of ChaCha20's stream for a key and a nonce of zeros.
const FIRST_DRAWN: [u8; 16] = [
    0x76, 0xb8, 0xe0, 0xad, 0xa0, 0xf1, 0x3d, 0x90, 0x40, 0x5d, 0x6a, 0xe5, 0x53, 0x86, 0xbd, 0x28,
];

/// The block of the first node of a line whose seed is of zeros, where so many lines before it made one.
pub fn first_made(lines: u8) -> FileName {
    let mut id = FIRST_DRAWN;
    id[15] = id[15].wrapping_add(lines);
    FileName::Block(BlockId(id))
}

/// The bytes of a stored file.
pub fn file(alloc: Global, files: &[Pending], name: FileName) -> Result<Vec<u8>, Fail> {
    for file in files {
        if file.name == name {
            if let Change::Bytes(bytes) = &file.change {
                return Ok(bytes.as_slice().to_vec(alloc)?);
            }
        }
    }
    Err(Fail::new("no such file"))
}

/// Drops a file, if it is there.
fn drop_file(files: &mut Vec<Pending>, name: &FileName)
    ensures { list_of files.new.items ≡ without (at_of name.now) (list_of files.old.items) }
{
    files.retain(|file| !is_same(name, &file.name));
}

/// Puts a file with these bytes behind the others, or drops it.
fn set_file(
    files: &mut Vec<Pending>,
    name: FileName,
    bytes: Option<Vec<u8>>,
) -> Result<(), AllocError>
    ensures { OnOk result (list_of files.new.items ≡ with_file (at_of name) (bytes_of bytes) (list_of files.old.items)) }
{
    drop_file(files, &name);
    match bytes {
        Some(bytes) => {
            files.push(Pending {
                name,
                change: Change::Bytes(bytes),
            })?;
            Ok(())
        }
        None => Ok(()),
    }
}

/// Stores these bytes for a file, or removes it, without a call.
pub fn store(
    alloc: Global,
    system: &mut System,
    name: FileName,
    bytes: Option<Vec<u8>>,
) -> Result<(), AllocError>
    ensures { OnOk result (system.new.vault.files ≡ with_file (at_of name) (bytes_of bytes) system.old.vault.files) }
{
    let mut files = copy_files(alloc, &system.vault)?;
    set_file(&mut files, name, bytes)?;
    system.vault.set_files(files);
    Ok(())
}

fn copy_change(alloc: Global, change: &Change) -> Result<Change, AllocError>
    ensures { IfOk result (λ copied. change_of copied ≡ change_of change.now) }
{
    match change {
        Change::Bytes(bytes) => Ok(Change::Bytes(bytes.as_slice().to_vec(alloc)?)),
        Change::Removal => Ok(Change::Removal),
    }
}

/// A copy of the stored files.
pub fn copy_files(alloc: Global, vault: &MemoryVault) -> Result<Vec<Pending>, AllocError>
    ensures { IfOk result (λ files. list_of files.items ≡ vault.now.files) }
{
    let stored = vault.files();
    let mut files = Vec::new(alloc);
    for file in stored {
        files.push(Pending {
            name: file.name,
            change: copy_change(alloc, &file.change)?,
        })?;
    }
    Ok(files)
}

/// How many block files there are.
pub fn count_blocks(vault: &MemoryVault) -> usize {
    vault
        .files()
        .iter()
        .filter(|file| file.name != FileName::Config)
        .count()
}
