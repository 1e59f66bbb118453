// What is done to a directory and a record between sessions, and what is seen there.

use crate::Seal;
use crate::site::{OLDER, Site, begun, file};
use crate::tower::SEAL;
use crate::words::{block, number, pair};
use aes_gcm::Aes256Gcm;
use block_id::BlockId;
use integrity_store::block_versions::write_record;
use integrity_store::redo_vault::RedoVault;
use integrity_store::sealed_store::SealedStore;
use memory_outside::{Event, MemoryKeeper, MemoryVault};
use outside::{Change, FileName, Pending, Vault};
use std::alloc::Global;
use std::mem;
use std::test::Fail;

/// Has the saves of these numbers fail, and each keep its record or not. No others fail.
fn fail_saves(alloc: Global, site: &mut Site, numbers: &str, keeps: bool) -> Result<(), Fail> {
    let kept = site.keeper.kept().ok_or("nothing is kept")?.to_vec(alloc)?;
    let mut fails = Vec::new(alloc);
    for word in numbers.split(' ') {
        if !word.is_empty() {
            fails.push((number(word)?, keeps))?;
        }
    }
    site.keeper = MemoryKeeper::new(alloc, Some(kept), fails);
    Ok(())
}

/// Notes a copy of a block's file under the name of the first, as in `b=a`.
fn note(alloc: Global, site: &mut Site, word: &str) -> Result<(), Fail> {
    let (id, letter) = pair(word)?;
    let bytes = file(site, letter)?.to_vec(alloc)?;
    site.noted.push(Pending {
        name: FileName::Block(id),
        change: Change::Bytes(bytes),
    })?;
    Ok(())
}

/// The bytes, with one cut or one bit changed.
fn damaged(mut bytes: Vec<u8>, how: &str) -> Result<Vec<u8>, Fail> {
    match how {
        "last-byte-cut" => {
            bytes.pop().ok_or("no byte")?;
        }
        "last-bit-flipped" => {
            let last = bytes.last_mut().ok_or("no byte")?;
            *last ^= 1;
        }
        "first-byte-changed" => {
            let first = bytes.first_mut().ok_or("no byte")?;
            *first ^= 1;
        }
        _ => return Err("no damage is so".into()),
    }
    Ok(bytes)
}

/// Has the next get answer the file that was noted last, no file if `gone`, or the file of `a` with a damage.
fn answer_first(alloc: Global, site: &mut Site, how: &str) -> Result<(), Fail> {
    let answer = match how {
        "gone" => None,
        "noted" => match site.noted.pop().ok_or("nothing is noted")?.change {
            Change::Bytes(bytes) => Some(bytes),
            Change::Removal => None,
        },
        _ => Some(damaged(file(site, "a")?.to_vec(alloc)?, how)?),
    };
    let mut answers = Vec::new(alloc);
    answers.push((1, answer))?;
    site.vault.replace(answers);
    Ok(())
}

/// A file of format 1 of this block: 50 times this byte, at version 1.
fn older_file(alloc: Global, id: &BlockId, byte: u8) -> Result<Vec<u8>, Fail> {
    let record = write_record(alloc, id, 1, 1, &[byte; 50])?;
    if record.len() != 80 {
        return Err("no record of 80 bytes".into());
    }
    let Seal {
        cipher,
        key,
        block_size,
    } = SEAL;
    let vault = RedoVault::new(MemoryVault::new(alloc), Vec::new(alloc));
    let store = SealedStore::new(vault, cipher, key, block_size);
    Ok(store.seal_form1(alloc, id, &record, &[9; 16])?)
}

/// Puts a file of format 1 in the place of `a`, as in `b=6` of this block and byte.
fn put_older_file(alloc: Global, site: &mut Site, word: &str) -> Result<(), Fail> {
    let (id, what) = pair(word)?;
    let byte: u8 = what.parse().ok().ok_or("this is no byte")?;
    let bytes = older_file(alloc, &id, byte)?;
    site.vault
        .put(alloc, &FileName::Block(block("a")?), &bytes)?;
    Ok(())
}

/// The first call on the directory put this text as the configuration.
fn has_configured(site: &Site, text: &str) -> Result<(), Fail> {
    match site.vault.trace().first() {
        Some(
            Event::Put {
                name: FileName::Config,
                bytes,
                ok: true,
            },
        ) if bytes.as_slice() == text.as_bytes() => Ok(()),
        _ => Err(Fail::from("another call came first")),
    }
}

/// There are so many, as in `files 2`.
fn is_counted(site: &Site, rest: &str) -> Result<(), Fail> {
    let (what, wanted) = rest.split_once(' ').ok_or("what, and how many")?;
    let count = match what {
        "bytes-of-record" => site.keeper.kept().unwrap_or(&[]).len(),
        "bytes-of-file" => file(site, "a")?.len(),
        "files" => site.vault.files().len(),
        "calls" => site.vault.trace().len(),
        _ => return Err(Fail::from("this isn't counted")),
    };
    if number(wanted)? == count as u64 {
        Ok(())
    } else {
        Err(Fail::new(format_args!("{count} came")))
    }
}

/// Looks at what there is, or changes the files and the record without a session.
pub(crate) fn obey(alloc: Global, site: &mut Site, order: &str) -> Result<(), Fail> {
    let (name, rest) = order.split_once(' ').unwrap_or((order, ""));
    match name {
        "count" => is_counted(site, rest)?,
        "first-put" => has_configured(site, rest)?,
        "older-record" => *site = begun(alloc, OLDER)?,
        "older-file" => put_older_file(alloc, site, rest)?,
        "note" => note(alloc, site, rest)?,
        "put-back" => {
            let files = mem::replace(&mut site.noted, Vec::new(alloc));
            site.vault.set_files(files);
        }
        "first-get" => answer_first(alloc, site, rest)?,
        "calls-fail" => site.vault.fail_calls([number(rest)?].to_vec(alloc)?),
        "changes-fail-from" => site.vault.fail_from(number(rest)?),
        "saves-fail" => fail_saves(alloc, site, rest, false)?,
        "saves-fail-but-keep" => fail_saves(alloc, site, rest, true)?,
        _ => return Err(Fail::new(format_args!("no order is {order}"))),
    }
    Ok(())
}
