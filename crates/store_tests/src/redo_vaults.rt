// What waits over a directory, and what of it is written.
use crate::steps::is_answered;
use block_id::BlockId;
use integrity_store::redo_vault::RedoVault;
use memory_outside::MemoryVault;
use outside::{Change, FileName, GetFail, Pending};
use std::alloc::{AllocError, Global};
use std::mem;
use std::test::Fail;

type Redo = RedoVault<MemoryVault>;

/// Each line is a step with what it answers, or a title, after which nothing waits over an empty directory.
///
///     call-fails 2              begins anew over a directory whose second call fails
///     put config:1,2 5:gone     has these bytes and this removal wait, as one batch
///     get 5 9                   asks for the first nine bytes of block 5
///     closed                    looks at the directory, without what waits
const STORIES: &str = "\
# what is not written is kept after a fault
call-fails 2
put config:1,2,3 1:gone 2:4
waiting = 3 with 4 bytes
write = Err(Failed)
waiting = 2 with 1 bytes
write = Ok(())
waiting = 0 with 0 bytes
closed = 4 calls, 2 files
# the list answers without a call
get 1 9 = none
put config:1,2,3 1:gone 2:4
get config 2 = [1, 2]
get 1 9 = none
closed = 1 calls, 0 files
# a batch out of order is set in its places
put 2:7,7,7,7 4:7,7,7,7 6:7,7,7,7 8:7,7,7,7 10:7,7,7,7 12:7,7,7,7 14:7,7,7,7 16:7,7,7,7 18:7,7,7,7 20:7,7,7,7
waiting = 10 with 40 bytes
put 19:gone 4:gone 1:gone 13:gone 6:gone 21:gone 9:gone 4:gone 17:gone 3:gone 5:gone
blocks = [1, 2, 3, 4, 5, 6, 8, 9, 10, 12, 13, 14, 16, 17, 18, 19, 20, 21]
waiting = 18 with 32 bytes
weight = 672
# a batch in order is merged with the list
put 3:7,7,7,7 6:7,7,7,7 9:7,7,7,7 12:7,7,7,7 15:7,7,7,7 18:7,7,7,7
put 2:gone 4:gone 6:gone 8:gone 10:gone 12:gone 14:gone 16:gone 18:gone 20:gone
blocks = [2, 3, 4, 6, 8, 9, 10, 12, 14, 15, 16, 18, 20]
waiting = 13 with 12 bytes
get 6 9 = none
get 9 9 = [7, 7, 7, 7]
";

/// Nothing waits over an empty directory. The call of this number fails, counted from 1.
fn redo_over(alloc: Global, failing: u64) -> Result<Redo, AllocError> {
    let mut below = MemoryVault::new(alloc);
    below.fail_calls([failing].to_vec(alloc)?);
    Ok(RedoVault::new(below, Vec::new(alloc)))
}

/// The block of which each byte of the id is this number, or the configuration.
fn name_of(word: &str) -> FileName {
    match word.parse() {
        Ok(number) => FileName::Block(BlockId([number; 16])),
        Err(_) => FileName::Config,
    }
}

/// A change, as in `5:1,2` or `5:gone`.
fn change_of(alloc: Global, part: &str) -> Result<Pending, Fail> {
    let (word, becomes) = part.split_once(':').ok_or("a file, and what it becomes")?;
    let name = name_of(word);
    if becomes == "gone" {
        return Ok(Pending {
            name,
            change: Change::Removal,
        });
    }
    let mut bytes = Vec::new(alloc);
    for byte in becomes.split(',') {
        bytes.push(byte.parse().ok().ok_or("this is no byte")?)?;
    }
    Ok(Pending {
        name,
        change: Change::Bytes(bytes),
    })
}

/// Has these changes wait, as one batch.
fn put(alloc: Global, vault: &mut Redo, parts: &str) -> Result<(), Fail> {
    let mut changes = Vec::new(alloc);
    for part in parts.split(' ') {
        changes.push(change_of(alloc, part)?)?;
    }
    Ok(vault.put_all(changes)?)
}

/// The front of a file, as in `5 9`.
fn front(alloc: Global, vault: &mut Redo, asked: &str) -> Result<String, Fail> {
    let (word, most) = asked.split_once(' ').ok_or("a file, and a number")?;
    let most: usize = most.parse().ok().ok_or("this is no number")?;
    match vault.get(alloc, &name_of(word), most)? {
        Some(bytes) => Ok(format!(in alloc; "{bytes:?}")?),
        None => Ok(String::from_str(alloc, "none")?),
    }
}

/// The number of a block, or 0 for another file.
fn number_of(name: &FileName) -> u8 {
    match name {
        FileName::Block(id) => {
            let number = id.0[0];
            if *id == BlockId([number; 16]) {
                number
            } else {
                0
            }
        }
        FileName::Config => 0,
    }
}

/// The numbers of the files that wait, in their order.
fn blocks(alloc: Global, list: &[Pending]) -> Result<String, AllocError> {
    let mut numbers = Vec::new(alloc);
    for pending in list {
        numbers.push(number_of(&pending.name))?;
    }
    format!(in alloc; "{numbers:?}")
}

/// What the list weighs, or how many changes wait with how many bytes.
fn sums(alloc: Global, vault: &Redo, verb: &str) -> Result<String, AllocError> {
    match verb {
        "weight" => format!(in alloc; "{}", vault.weight()),
        _ => {
            let count = vault.entries().len();
            format!(in alloc; "{count} with {} bytes", vault.buffered())
        }
    }
}

/// The calls that were made below, and the files there. Nothing waits afterwards, over another directory.
fn closed(alloc: Global, vault: &mut Redo) -> Result<String, AllocError> {
    let below = mem::replace(vault, redo_over(alloc, 0)?).into_vault();
    let calls = below.trace().len();
    format!(in alloc; "{calls} calls, {} files", below.files().len())
}

/// Writes what waits, until a call fails.
fn write(alloc: Global, vault: &mut Redo) -> Result<(), GetFail> {
    vault.write_out(alloc)
}

/// What a step answers.
fn answer(alloc: Global, vault: &mut Redo, step: &str) -> Result<String, Fail> {
    let (verb, rest) = step.split_once(' ').unwrap_or((step, ""));
    match verb {
        "#" => *vault = redo_over(alloc, 0)?,
        "call-fails" => *vault = redo_over(alloc, rest.parse().ok().ok_or("this is no number")?)?,
        "put" => put(alloc, vault, rest)?,
        "get" => return front(alloc, vault, rest),
        "blocks" => return Ok(blocks(alloc, vault.entries())?),
        "write" => return Ok(format!(in alloc; "{:?}", write(alloc, vault))?),
        "closed" => return Ok(closed(alloc, vault)?),
        _ => return Ok(sums(alloc, vault, verb)?),
    }
    Ok(String::new(alloc))
}

#[test]
fn what_waits_is_told_and_written(rt: HostRuntime) -> Result<(), Fail> {
    let alloc = rt.alloc();
    let mut vault = redo_over(alloc, 0)?;
    for line in STORIES.lines() {
        let (step, wanted) = line.split_once(" = ").unwrap_or((line, ""));
        let told = answer(alloc, &mut vault, step)?;
        is_answered(step, &told, wanted)?;
    }
    Ok(())
}
