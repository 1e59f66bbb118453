// The commands that numbers make, beside the tree in memory.
use crate::site::{Site, answer, answered, empty_site};
use fs_model::{Command, Moment};
use std::alloc::Global;
use std::test::Fail;
use workload::generated;

/// So many groups of eight make directories of hundreds of entries.
const COMMANDS: u64 = 2_000;

/// The directories that they make.
const DIRECTORIES: u64 = 16;

/// The command of a number, with nothing said of it: its contract would be carried through all that follows.
fn command_of(alloc: Global, number: u64) -> Result<Command, Fail> {
    Ok(generated(alloc, number)?)
}

/// The command of this number is answered alike.
fn play(alloc: Global, site: &mut Site, now: Moment, number: u64) -> Result<(), Fail> {
    let command = command_of(alloc, number)?;
    answered(alloc, site, now, &command)?;
    Ok(())
}

/// Each directory has the same attributes, moments among them, in blobs and in memory.
fn have_same_directories(alloc: Global, site: &mut Site, now: Moment) -> Result<(), Fail> {
    for d in 0..DIRECTORIES {
        let line = format!(in alloc; "stat /d{d}")?;
        answer(alloc, site, now, &line)?;
    }
    Ok(())
}

/// So many commands, with a look at the directories after each 250.
fn play_each(rt: &HostRuntime, site: &mut Site) -> Result<(), Fail> {
    for i in 0..COMMANDS {
        let now = Moment::new(100 + i, 5).ok_or("nanos")?;
        let found = play(rt.alloc(), site, now, i);
        if found.is_err() {
            let _ = println!(rt; "at command {i}");
        }
        found?;
        if i % 250 == 249 {
            have_same_directories(rt.alloc(), site, now)?;
        }
    }
    Ok(())
}

#[test]
fn each_reply_is_that_of_the_tree_in_memory(rt: HostRuntime) -> Result<(), Fail> {
    let mut site = empty_site(rt.alloc())?;
    play_each(&rt, &mut site)
}
