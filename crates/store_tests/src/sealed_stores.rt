// Files of both formats that are sealed, changed and opened.
ghost use Rattle.std.specs.Prelude.{IfOk};
ghost use Rattle.integrity_store.specs.sealed_store.Stores.{IsIntact, block_size_of, cipher_of};

use crate::integrity_files::{Sealed, put_draft, sealed_file, sealed_over};
use crate::steps::is_answered;
use aes_gcm::Aes256Gcm;
use block_id::BlockId;
use integrity_store::sealed_store::Seen;
use memory_outside::MemoryVault;
use outside::{Change, FileName, Pending, Vault};
use seal_api::Sealer;
use std::alloc::{AllocError, Global};
use std::mem;
use std::test::Fail;

/// The block that is sealed, with fives as its plaintext.
const ID: BlockId = BlockId([7; 16]);

const PLAIN: [u8; 80] = [5; 80];

/// Each line is a step with what it answers, or a title.
///
///     over 7 format-1 turn:15   begins with a directory where the file of block 7 is the one of this format, one bit turned
///     over draft                begins with a file of format 2 that waits, which was put twice
///     get 7 2 80                looks at block 7 where the least format is 2 and it is asked for at most 80 bytes
///     closed                    looks at the first file of the directory, and begins over an empty one
const STORIES: &str = "\
# a file of format 2 opens
over 7 format-2
closed = 128 bytes from cryfs;block;0\0\x02\0 as sealed
over 7 format-2
get 7 1 all = 80 fives
get 7 2 all = 80 fives
# one of format 1 opens while the least format is 1
over 7 format-1
closed = 128 bytes from cryfs;block;0\0\x01\0
over 7 format-1
get 7 1 all = 80 fives
get 7 2 all = old format
# a file under the name of another block opens in format 1 alone
over 8 format-2
get 8 1 all = not opened
get 8 2 all = not opened
over 8 format-1
get 8 1 all = 80 fives
get 8 2 all = old format
# neither format opens as the other; before the seal is tried an old format is told, also of a file that does not open
over 7 format-2 say-format:1
get 7 1 all = not opened
get 7 2 all = old format
over 7 format-1 say-format:2
get 7 1 all = not opened
get 7 2 all = not opened
# other prefixes are told from seals that do not open
over 7 format-2 turn:15
get 7 1 all = bad prefix
get 7 2 all = bad prefix
over 7 format-2 turn:16
get 7 1 all = not opened
get 7 2 all = not opened
over 7 format-2 turn:127
get 7 1 all = not opened
get 7 2 all = not opened
# files that are absent, too long or too short
over nothing
sizes = IVs of 16 bytes, files of 128
get 7 2 0 = absent
over 7 format-2 length:129
get 7 1 all = bad length
get 7 2 all = bad length
over 7 format-2 length:127
get 7 1 all = bad length
get 7 2 all = bad length
# a draft is seen as the file that it is sealed to
over draft
waiting = 1 with 128 bytes
get 7 2 80 = 80 fives
get 7 3 80 = old format
write
waiting = 0 with 0 bytes
get 7 2 80 = 80 fives
get 7 3 80 = old format
closed = 128 bytes from cryfs;block;0\0\x02\0 as sealed
# no more than the front of a draft is opened
over draft
get 7 2 3 = 3 fives
get 7 2 0 = 0 fives
get 7 2 81 = 80 fives
# no more than the front of a file is opened
over draft
write
get 7 2 3 = 3 fives
get 7 2 0 = 0 fives
get 7 2 81 = 80 fives
# no front of a file that ends otherwise is opened
over 7 format-2 turn:127
get 7 2 3 = not opened
";

/// The file in format 1.
fn sealed_alone(alloc: Global) -> Result<Vec<u8>, Fail> {
    let store = sealed_over(alloc, MemoryVault::new(alloc));
    Ok(store.seal_form1(alloc, &ID, &PLAIN, &[9; 16])?)
}

/// Changes a file, as in `turn:15`, `say-format:1` or `length:129`.
fn edit(file: &mut Vec<u8>, how: &str) -> Result<(), Fail> {
    let (what, number) = how.split_once(':').ok_or("a change, and a number")?;
    let number: usize = number.parse().ok().ok_or("this is no number")?;
    match what {
        "turn" => *file.get_mut(number).ok_or("no such byte")? ^= 1,
        "say-format" => *file.get_mut(14).ok_or("no such byte")? = if number == 1 { 1 } else { 2 },
        _ => file.resize(number, 0)?,
    }
    Ok(())
}

/// The file of a format, with these changes.
fn file_of(alloc: Global, words: &str) -> Result<Vec<u8>, Fail> {
    let mut file = Vec::new(alloc);
    for word in words.split(' ') {
        match word {
            "format-1" => file = sealed_alone(alloc)?,
            "format-2" => file = sealed_file(alloc, &ID, &PLAIN)?,
            _ => edit(&mut file, word)?,
        }
    }
    Ok(file)
}

/// A directory with a block's file, as in `7 format-2 turn:15`, or with none.
fn directory(alloc: Global, how: &str) -> Result<MemoryVault, Fail> {
    let mut below = MemoryVault::new(alloc);
    if let Some((number, words)) = how.split_once(' ') {
        let number = number.parse().ok().ok_or("this is no block")?;
        let name = FileName::Block(BlockId([number; 16]));
        below.put(alloc, &name, &file_of(alloc, words)?)?;
    }
    Ok(below)
}

/// A store over such a directory, or with a draft that was put twice.
fn begun(alloc: Global, how: &str) -> Result<Sealed, Fail>
    ensures { IfOk result (λ store. IsIntact (block_size_of store) (⟦<Aes256Gcm as Sealer>⟧.iv_size (cipher_of store))) }
{
    let mut store = sealed_over(alloc, directory(alloc, how)?);
    if how == "draft" {
        put_draft(alloc, &mut store, &ID, &[4; 80])?;
        put_draft(alloc, &mut store, &ID, &PLAIN)?;
    }
    Ok(store)
}

/// The block, the least format and the number of bytes of a question, as in `7 2 80` or `7 2 all`.
fn question(asked: &str) -> Option<(BlockId, u8, usize)> {
    let (block, rest) = asked.split_once(' ')?;
    let (least, most) = rest.split_once(' ')?;
    let most = match most {
        "all" => usize::MAX,
        _ => most.parse().ok()?,
    };
    Some((
        BlockId([block.parse().ok()?; 16]),
        least.parse().ok()?,
        most,
    ))
}

/// What a store sees of a block.
fn look(alloc: Global, store: &mut Sealed, asked: &str) -> Result<Seen, Fail>
    requires { IsIntact (block_size_of store.old) (⟦<Aes256Gcm as Sealer>⟧.iv_size (cipher_of store.old)) }
    ensures { IsIntact (block_size_of store.new) (⟦<Aes256Gcm as Sealer>⟧.iv_size (cipher_of store.new)) }
{
    let (id, least, most) = question(asked).ok_or("a block, a format and a number")?;
    Ok(store.get_plain(alloc, &id, least, most)?)
}

/// Writes what waits.
fn write(alloc: Global, store: &mut Sealed) -> Result<(), Fail>
    requires { IsIntact (block_size_of store.old) (⟦<Aes256Gcm as Sealer>⟧.iv_size (cipher_of store.old)) }
    ensures { IsIntact (block_size_of store.new) (⟦<Aes256Gcm as Sealer>⟧.iv_size (cipher_of store.new)) }
{
    Ok(store.write_out(alloc)?)
}

/// What is seen, in words.
fn in_words(alloc: Global, seen: Seen) -> Result<String, AllocError> {
    let words = match seen {
        Seen::Absent => "absent",
        Seen::BadLength => "bad length",
        Seen::BadPrefix => "bad prefix",
        Seen::OldFormat => "old format",
        Seen::NotOpened => "not opened",
        Seen::Plain(plain) if PLAIN.starts_with(plain.as_slice()) => {
            return format!(in alloc; "{} fives", plain.len());
        }
        Seen::Plain(_) => "another plaintext",
    };
    String::from_str(alloc, words)
}

/// The first file of a directory: its length, its first bytes, and whether it is what a store seals.
fn first_file(alloc: Global, below: &MemoryVault) -> Result<String, Fail> {
    let sealed = sealed_file(alloc, &ID, &PLAIN)?;
    match below.files().first() {
        Some(
            Pending {
                name: _,
                change: Change::Bytes(file),
            },
        ) => {
            let front = file.get(..16).ok_or("no prefix")?;
            let front = str::from_utf8(front).unwrap_or("bytes");
            let how = if *file == sealed { " as sealed" } else { "" };
            Ok(format!(in alloc; "{} bytes from {front}{how}", file.len())?)
        }
        _ => Ok(String::from_str(alloc, "no file")?),
    }
}

/// The first file of the directory. The store is over another one afterwards.
fn closed(alloc: Global, store: &mut Sealed) -> Result<String, Fail>
    ensures { IsIntact (block_size_of store.new) (⟦<Aes256Gcm as Sealer>⟧.iv_size (cipher_of store.new)) }
{
    let next = sealed_over(alloc, MemoryVault::new(alloc));
    let below = mem::replace(store, next).into_vault();
    first_file(alloc, &below)
}

/// How much waits, or the sizes of a store.
fn counted(alloc: Global, store: &Sealed, verb: &str) -> Result<String, AllocError> {
    match verb {
        "waiting" => { format!(in alloc; "{} with {} bytes", store.waiting(), store.buffered()) }
        "sizes" => {
            format!(in alloc;
                "IVs of {} bytes, files of {}",
                store.iv_len(),
                store.block_size()
            )
        }
        _ => Ok(String::new(alloc)),
    }
}

/// What a step answers.
fn answer(alloc: Global, store: &mut Sealed, step: &str) -> Result<String, Fail>
    requires { IsIntact (block_size_of store.old) (⟦<Aes256Gcm as Sealer>⟧.iv_size (cipher_of store.old)) }
    ensures { IsIntact (block_size_of store.new) (⟦<Aes256Gcm as Sealer>⟧.iv_size (cipher_of store.new)) }
{
    let (verb, rest) = step.split_once(' ').unwrap_or((step, ""));
    match verb {
        "over" => *store = begun(alloc, rest)?,
        "write" => write(alloc, store)?,
        "get" => return Ok(in_words(alloc, look(alloc, store, rest)?)?),
        "closed" => return closed(alloc, store),
        _ => {}
    }
    Ok(counted(alloc, store, verb)?)
}

#[test]
fn files_are_seen_as_they_were_sealed(rt: HostRuntime) -> Result<(), Fail> {
    let alloc = rt.alloc();
    let mut store = begun(alloc, "nothing")?;
    for line in STORIES.lines() {
        let (step, wanted) = line.split_once(" = ").unwrap_or((line, ""));
        let told = answer(alloc, &mut store, step)?;
        is_answered(step, &told, wanted)?;
    }
    Ok(())
}
