// Changes of the stored files and of the record that no run makes.

use crate::files::configuration;
use crate::keys::{older_root, spent_record, spent_root};
use crate::tale::{Tale, noted};
use outside::{ByteLine, FileName};
use std::alloc::{AllocError, Global};
use std::mem;
use std::test::Fail;
use test_systems::memory_outside::MemoryKeeper;
use test_systems::{System, block, file, first_made, store};

/// The file of this name. The root's block has the number 1; the others were made in this order.
pub fn named(word: &str) -> FileName {
    match word {
        "root" => block(1),
        "first" => first_made(0),
        "second" => first_made(1),
        "third" => first_made(2),
        _ => FileName::Config,
    }
}

fn flip(byte: Option<&mut u8>) {
    if let Some(byte) = byte {
        *byte ^= 1;
    }
}

/// The bytes, with one more, one less or one changed.
fn edited(mut bytes: Vec<u8>, how: &str) -> Result<Vec<u8>, AllocError> {
    match how {
        "longer" => bytes.push(0)?,
        "shorter" => {
            bytes.pop();
        }
        "changed-last" => flip(bytes.last_mut()),
        "changed-first" => flip(bytes.first_mut()),
        _ => flip(bytes.get_mut(1000)),
    }
    Ok(bytes)
}

/// New bytes of a file.
fn new_bytes(alloc: Global, system: &System, name: FileName, how: &str) -> Result<Vec<u8>, Fail> {
    match how {
        "empty" => Ok(Vec::new(alloc)),
        "in-the-older-format" => older_root(alloc, system),
        "of-the-last-version" => spent_root(alloc, system),
        "longer" | "shorter" | "changed-last" | "changed-first" | "changed-at-1000" => {
            Ok(edited(file(alloc, system.vault.files(), name)?, how)?)
        }
        _ => configuration(alloc, how),
    }
}

/// What a file becomes: nothing if `gone`, as `0 first` what `first` was at the note of this number, or other bytes.
fn becomes(alloc: Global, tale: &Tale, name: FileName, how: &str) -> Result<Option<Vec<u8>>, Fail> {
    if how == "gone" {
        return Ok(None);
    }
    match how.split_once(' ') {
        Some((number, word)) => {
            let note = noted(tale, number).ok_or("no such note")?;
            Ok(Some(file(alloc, &note.files, named(word))?))
        }
        None => Ok(Some(new_bytes(alloc, &tale.system, name, how)?)),
    }
}

/// Changes a file, as in `root longer`.
pub fn change_file(alloc: Global, tale: &mut Tale, rest: &str) -> Result<(), Fail> {
    let (word, how) = rest.split_once(' ').ok_or("a file, and what it becomes")?;
    let bytes = becomes(alloc, tale, named(word), how)?;
    Ok(store(alloc, &mut tale.system, named(word), bytes)?)
}

/// What the record becomes: the bytes `abc`, the same with the root's last version, or what it was at a note.
fn record_of(alloc: Global, tale: &Tale, how: &str) -> Result<Vec<u8>, Fail> {
    match how {
        "abc" => Ok(b"abc".to_vec(alloc)?),
        "of-the-last-version" => Ok(spent_record(alloc, tale.system.keeper.kept())?),
        _ => {
            let note = noted(tale, how).ok_or("no such note")?;
            match &note.record {
                Some(bytes) => Ok(bytes.as_slice().to_vec(alloc)?),
                None => Err(Fail::new("nothing was kept")),
            }
        }
    }
}

/// Changes the record, or drops it: `none`.
pub fn change_record(alloc: Global, tale: &mut Tale, how: &str) -> Result<(), Fail> {
    let record = if how == "none" {
        None
    } else {
        Some(record_of(alloc, tale, how)?)
    };
    tale.system.keeper = MemoryKeeper::new(alloc, record, Vec::new(alloc));
    Ok(())
}

/// Puts the files of a note back, which has none then.
pub fn put_back(alloc: Global, tale: &mut Tale, number: &str) -> Result<(), Fail> {
    let number: usize = number.parse().ok().ok_or("this is no number")?;
    let note = tale.notes.get_mut(number).ok_or("no such note")?;
    let files = mem::replace(&mut note.files, Vec::new(alloc));
    tale.system.vault.set_files(files);
    Ok(())
}

/// Puts a file of this name beside those of the directory.
pub fn add_stranger(alloc: Global, system: &mut System, name: &str) -> Result<(), Fail> {
    let mut names = Vec::new(alloc);
    names.push(ByteLine::new(name.as_bytes().to_vec(alloc)?))?;
    system.vault.set_strangers(names);
    Ok(())
}
