// What a run flushes as it puts a block, and before it saves a record.
use crate::stories::tell;
use real_outside::FolderRun;
use std::alloc::{AllocError, Global};
use std::test::Fail;

/// Of the folders of two files, the block folder and the one that it lies in each has to be flushed before a record is saved.
const SAVES: &str = "# no flush succeeds | s/blocks s s
allows 0
begin
allows 9
saves: old
puts zeros: one
puts tens: two
allows 0
fails-to-save: new
allows 9
fails-to-save: new
holds s/cryfs.localstate: old
# one flush succeeds | s/blocks s s
makes s
writes s/cryfs.localstate: old
begin
allows 9
saves: old
puts zeros: one
puts tens: two
allows 1
fails-to-save: new
allows 9
fails-to-save: new
holds s/cryfs.localstate: old
# two flushes succeed | s/blocks s s
makes s
writes s/cryfs.localstate: old
begin
allows 9
saves: old
puts zeros: one
puts tens: two
allows 2
fails-to-save: new
allows 9
fails-to-save: new
holds s/cryfs.localstate: old
# three flushes succeed | s/blocks s s
makes s
writes s/cryfs.localstate: old
begin
allows 9
saves: old
puts zeros: one
puts tens: two
allows 3
fails-to-save: new
allows 9
fails-to-save: new
holds s/cryfs.localstate: old
";

/// Two flushes are those of the record itself. Each file is flushed as it is put, each folder by the first save after its
/// change alone, and the names of the two folders that the run was given by its first. A put that failed may have made its
/// file, so the two folders are flushed for it and the next. Whoever keeps the block folder can refuse its flushes, but not
/// the mark, which is the last byte of a record's front.
const FLUSHES: &str = "# flushes each file and folder once | s/blocks s s
makes s/blocks
begin
allows 1
puts zeros: one
fails-to-put tens: two
none-left
allows 2
puts zeros: one
puts tens: two
none-left
allows 9
saves: new
none-left
allows 2
saves: new
none-left
allows 2
puts zeros: one
puts tens: two
allows 2
saves: new
none-left
deletes zeros
allows 3
saves: new
none-left
# saves a mark without the blocks | s/blocks s s
makes s/blocks
begin
allows 4
puts zeros: one
puts tens: two
fails-to-save: cryfs.localstate;1\0\0
allows 2
saves: cryfs.localstate;1\0\u{1}
none-left
holds s/cryfs.localstate: cryfs.localstate;1\0\u{1}
";

/// The names of the blocks' files weren't flushed before their folder was taken away. Of two runs that found no block folder
/// the one that saves first makes it, and the other keeps nothing of what it would put there.
const FOLDERS: &str = "# saves nothing over another block folder | s/blocks s s
begin
puts zeros: one
puts tens: two
renames s/blocks: s/away
makes s/blocks
fails-to-save: cryfs.localstate;1\0\0
saves: cryfs.localstate;1\0\u{1}
# claims the block folder before a record is saved | blocks one two
begin
gets config: (none)
loads: (none)
second
gets config: (none)
loads: (none)
first
saves: cryfs.localstate;1\0\0
puts config: first
second
fails-to-save: cryfs.localstate;1\0\0
lacks two/cryfs.localstate
fails-to-put config: second
holds blocks/cryfs.config: first
";

#[test]
fn runs_in_folders(rt: HostRuntime) -> Result<(), Fail> {
    tell(&rt, "runs", SAVES)?;
    tell(&rt, "runs", FLUSHES)?;
    tell(&rt, "runs", FOLDERS)
}

/// A record of three blocks, the second of which is dead, with so many bytes before their number.
fn record_of(alloc: Global, magic: &str, front: usize) -> Result<Vec<u8>, AllocError> {
    let mut bytes = String::from_str(alloc, magic)?.into_bytes();
    bytes.resize(front, 7)?;
    bytes.extend_from_slice(&[3, 0, 0, 0, 0, 0, 0, 0])?;
    for is_live in &[1, 0, 1] {
        bytes.extend_from_slice(&[7; 24])?;
        bytes.push(*is_live)?;
    }
    bytes.extend_from_slice(&[0; 8])?;
    Ok(bytes)
}

/// How many live blocks a run knows after such a record was loaded.
fn known_of(alloc: Global, magic: &str, front: usize) -> Result<u64, Fail> {
    let run = FolderRun::new(alloc, 1)?;
    run.count_blocks();
    run.know(&record_of(alloc, magic, front)?);
    Ok(run.known_blocks())
}

#[test]
fn live_blocks_are_counted(rt: HostRuntime) -> Result<(), Fail> {
    let older = known_of(rt.alloc(), "cryfs.localstate;1\0", 104)?;
    let newer = known_of(rt.alloc(), "cryfs.localstate;2\0", 105)?;
    if older == 2 && newer == 2 {
        Ok(())
    } else {
        Err(Fail::new(format_args!("{older} and {newer} live blocks were counted")))
    }
}
