// What a story does to a file system between its runs.
use crate::inputs::{list_of, number};
use std::alloc::Global;
use std::mem;
use std::test::Fail;
use test_systems::{System, block, failing_saves, new_system, nothing, store};

/// The first save fails, and keeps the old record.
fn fail_save(alloc: Global, system: &mut System) -> Result<(), Fail> {
    let before = mem::replace(system, nothing(alloc));
    *system = failing_saves(alloc, before, vec![in alloc; (1, false)]?)?;
    Ok(())
}

/// Changes a file system: `new`; `calls-fail 2`, or none any more; `finds-nothing 2` has the call of that number find
/// nothing; `without-block 1`; `save-fails`.
pub fn change_system(
    alloc: Global,
    system: &mut System,
    word: &str,
    rest: &str,
) -> Result<bool, Fail> {
    match word {
        "new" => *system = new_system(alloc)?,
        "calls-fail" => system.vault.fail_calls(list_of(alloc, rest)?),
        "finds-nothing" => system
            .vault
            .replace(vec![in alloc; (number(rest)? as u64, None)]?),
        "without-block" => {
            let number = (number(rest)? % 256) as u8;
            store(alloc, system, block(number), None)?;
        }
        "save-fails" => fail_save(alloc, system)?,
        _ => return Ok(false),
    }
    Ok(true)
}
