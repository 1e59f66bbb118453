// What a story has so far: its file system, the manner of its runs, and what was noted.

use outside::Pending;
use std::alloc::{AllocError, Global};
use std::test::Fail;
use test_systems::{System, copy_files, new_system};

/// How the runs of a story are from here on: the input in pieces of so many bytes, the moment, and the numbers of the calls
/// that fail, of the source and of the sink, or 0. Whether an input of one line keeps its end of line, and whether a save
/// that fails keeps its record.
#[derive(Clone, Copy)]
pub struct Manner {
    pub piece: usize,
    pub secs: u64,
    pub nanos: u32,
    pub reads: [u64; 1],
    pub writes: [u64; 1],
    pub whole: bool,
    pub keeps: bool,
}

/// The manner in which a story begins.
pub const PLAIN: Manner = Manner {
    piece: 7,
    secs: 100,
    nanos: 5,
    reads: [0],
    writes: [0],
    whole: false,
    keeps: false,
};

/// The files and the record as they were, and how many calls on the directory had been made.
#[derive(Drop)]
pub struct Note {
    pub files: Vec<Pending>,
    pub record: Option<Vec<u8>>,
    pub calls: usize,
}

/// A story so far.
#[derive(Drop)]
pub struct Tale {
    pub system: System,
    pub manner: Manner,
    pub notes: Vec<Note>,
}

/// A story over a new file system.
pub fn begun(alloc: Global) -> Result<Tale, Fail> {
    Ok(Tale {
        system: new_system(alloc)?,
        manner: PLAIN,
        notes: Vec::new(alloc),
    })
}

/// A copy of what is kept.
pub fn copy_kept(alloc: Global, kept: Option<&[u8]>) -> Result<Option<Vec<u8>>, AllocError> {
    match kept {
        Some(bytes) => Ok(Some(bytes.to_vec(alloc)?)),
        None => Ok(None),
    }
}

fn note_of(alloc: Global, system: &System) -> Result<Note, AllocError> {
    Ok(Note {
        files: copy_files(alloc, &system.vault)?,
        record: copy_kept(alloc, system.keeper.kept())?,
        calls: system.vault.trace().len(),
    })
}

/// Notes how all is.
pub fn take_note(alloc: Global, tale: &mut Tale) -> Result<(), AllocError> {
    let note = note_of(alloc, &tale.system)?;
    tale.notes.push(note)?;
    Ok(())
}

/// What was noted under this number, counted from 0.
pub fn noted<'a>(tale: &'a Tale, number: &str) -> Option<&'a Note> {
    let number: usize = number.parse().ok()?;
    tale.notes.get(number)
}

/// Whether what is kept is what was kept at the last note.
pub fn is_kept(tale: &Tale) -> bool {
    match (tale.system.keeper.kept(), tale.notes.last()) {
        (Some(bytes), Some(note)) => is_record(bytes, &note.record),
        (None, Some(note)) => note.record.is_none(),
        _ => false,
    }
}

fn is_record(bytes: &[u8], record: &Option<Vec<u8>>) -> bool {
    match record {
        Some(record) => bytes == record.as_slice(),
        None => false,
    }
}
