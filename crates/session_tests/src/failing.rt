// Calls that fail from here on.

use crate::inputs::{number, numbers};
use crate::tale::copy_kept;
use std::alloc::Global;
use std::mem;
use std::test::Fail;
use test_systems::memory_outside::MemoryKeeper;
use test_systems::{System, mended, nothing};

/// The save of this number fails, counted from here on, and keeps its record or doesn't.
fn fail_save(alloc: Global, system: &mut System, number: u64, keeps: bool) -> Result<(), Fail> {
    let kept = copy_kept(alloc, system.keeper.kept())?;
    let fails = [(number, keeps)].to_vec(alloc)?;
    system.keeper = MemoryKeeper::new(alloc, kept, fails);
    Ok(())
}

/// Has nothing fail any more.
fn mend(alloc: Global, system: &mut System) -> Result<(), Fail> {
    let broken = mem::replace(system, nothing(alloc));
    *system = mended(alloc, broken)?;
    Ok(())
}

/// Sets which calls fail, where the order says that. Puts and removals are changes, gets too are calls.
pub fn set_failing(
    alloc: Global,
    system: &mut System,
    keeps: bool,
    name: &str,
    rest: &str,
) -> Result<bool, Fail> {
    match name {
        "changes-fail-from" => system.vault.fail_from(number(rest)?),
        "calls-fail" => system.vault.fail_calls(numbers(alloc, rest)?),
        "loads-fail" => system.keeper.fail_loads(numbers(alloc, rest)?),
        "saves-fail-from" => system.keeper.fail_from(number(rest)?, keeps),
        "save-fails" => fail_save(alloc, system, number(rest)?, keeps)?,
        "mend" => mend(alloc, system)?,
        _ => return Ok(false),
    }
    Ok(true)
}
