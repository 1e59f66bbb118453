// What a directory in memory gives, and how its calls, answers and files are replaced.
use crate::calls::{file_of, on_vault};
use crate::copies::parts_of;
use crate::stories::{Order, tell};
use memory_outside::MemoryVault;
use outside::{ByteLine, Change, FileName, GetFail, Listing, Pending};
use std::alloc::{AllocError, Global};
use std::test::Fail;

/// Has the call of this number fail, counted from here on.
fn fail_call(alloc: Global, vault: &mut MemoryVault, number: u64) -> Result<(), AllocError> {
    vault.fail_calls([number].to_vec(alloc)?);
    Ok(())
}

/// Has the get of this number answer these bytes.
fn replace(
    alloc: Global,
    vault: &mut MemoryVault,
    number: u64,
    bytes: &str,
) -> Result<(), AllocError> {
    let mut answers = Vec::new(alloc);
    answers.push((number, Some(bytes.as_bytes().to_vec(alloc)?)))?;
    vault.replace(answers);
    Ok(())
}

/// Has the directory consist of a file of these bytes.
fn set_file(
    alloc: Global,
    vault: &mut MemoryVault,
    name: FileName,
    bytes: &str,
) -> Result<(), AllocError> {
    let mut files = Vec::new(alloc);
    files.push(Pending {
        name,
        change: Change::Bytes(bytes.as_bytes().to_vec(alloc)?),
    })?;
    vault.set_files(files);
    Ok(())
}

/// Has the directory list these names beside those of its files.
fn set_strangers(alloc: Global, vault: &mut MemoryVault, names: &[&str]) -> Result<(), AllocError> {
    let mut strange = Vec::new(alloc);
    for name in names {
        strange.push(ByteLine::new(name.as_bytes().to_vec(alloc)?))?;
    }
    vault.set_strangers(strange);
    Ok(())
}

fn list<V: Listing>(alloc: Global, vault: &mut V) -> Result<Vec<ByteLine>, GetFail> {
    vault.list(alloc)
}

fn are_lines(lines: &[ByteLine], want: &[&str]) -> bool {
    for (line, want) in lines.iter().zip(want.iter()) {
        if line.as_slice() != want.as_bytes() {
            return false;
        }
    }
    lines.len() == want.len()
}

/// Whether the directory lists as the order says: these names, so many, or none since it fails.
fn is_listed(alloc: Global, vault: &mut MemoryVault, order: &Order<'_>) -> Option<bool> {
    match list(alloc, vault) {
        Ok(lines) if order.name == "lists" => {
            Some(are_lines(&lines, &parts_of(alloc, order.text, '|')?))
        }
        Ok(lines) => Some(order.subject.parse().ok() == Some(lines.len())),
        Err(error) => Some(error == GetFail::Failed && order.name == "fails-to-list"),
    }
}

/// Whether what a directory answers is set, where an order says that.
fn is_set(alloc: Global, vault: &mut MemoryVault, order: &Order<'_>) -> Option<bool> {
    let subject = order.subject;
    let set = match order.name {
        "call-fails" => fail_call(alloc, vault, subject.parse().ok()?),
        "answers" => replace(alloc, vault, subject.parse().ok()?, order.text),
        "consists-of" => set_file(alloc, vault, file_of(subject)?, order.text),
        "strangers" => set_strangers(alloc, vault, &parts_of(alloc, order.text, '|')?),
        _ => return None,
    };
    Some(set.is_ok())
}

/// Whether an order on a directory in memory comes out, where it is one. Beside calls (`calls`) these are:
///
/// | Order | Does or sees |
/// |---|---|
/// | `call-fails 2` | the call of this number fails, counted from here on |
/// | `changes-fail-from 2` | each put and removal from this one on fails |
/// | `answers 2: text` | the get of this number answers these bytes |
/// | `consists-of one: text` | the directory has this file alone |
/// | `strangers: x y\|` | it lists these names beside |
/// | `lists: x y\|`, `counts 2`, `fails-to-list` | what a listing gives, how many names, or that it fails |
/// | `made 5`, `has 1` | so many calls were made, and there are so many files |
pub fn on_directory(alloc: Global, vault: &mut MemoryVault, order: &Order<'_>) -> Option<bool> {
    match order.name {
        "made" => Some(order.subject.parse().ok() == Some(vault.trace().len())),
        "has" => Some(order.subject.parse().ok() == Some(vault.files().len())),
        "lists" | "counts" | "fails-to-list" => is_listed(alloc, vault, order),
        "changes-fail-from" => {
            vault.fail_from(order.subject.parse().ok()?);
            Some(true)
        }
        _ => match is_set(alloc, vault, order) {
            Some(came_out) => Some(came_out),
            None => on_vault(alloc, vault, order),
        },
    }
}

const STORIES: &str = "# gives what was put
puts sevens: \x01\x02\x03
puts config: \x04
gets 2 sevens: \x01\x02
deletes sevens
gets 2 sevens: (none)
made 5
has 1
# fails in the listed calls
call-fails 2
puts sevens: \x01
gets 9 sevens: (fails)
puts config: \x02
changes-fail-from 2
puts sevens: \x03
fails-to-put sevens: \x04
fails-to-delete sevens
gets 9 sevens: \x03
made 6
# gives other answers and files
answers 2: \x01\x02\x03
gets 9 sevens: (none)
gets 2 sevens: \x01\x02
consists-of sevens: \x05
gets 9 sevens: \x05
made 3
# lists strange names, its own among them, in order with those of two files
puts sevens: \x01
puts config: \x02
strangers: x y||07/x|x y|cryfs.config|\u{e9}
call-fails 2
lists: |07/x|070/70707070707070707070707070707|cryfs.config|x y|\u{e9}
fails-to-list
strangers:
counts 2
made 2
";

#[test]
fn directories_in_memory(rt: HostRuntime) -> Result<(), Fail> {
    tell(&rt, "memory", STORIES)
}
