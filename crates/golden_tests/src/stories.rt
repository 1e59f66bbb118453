// Stories: runs over one file system, one after another, with what is done to its files between them.

use crate::orders::obey;
use std::alloc::Global;
use std::test::Fail;
use test_systems::{System, nothing, play};

/// A story so far: its file system, and a copy of it as it was when it was noted.
#[derive(Drop)]
pub struct Tale {
    pub system: System,
    pub noted: System,
}

/// One step: an order, or a run.
fn take_step(alloc: Global, tale: &mut Tale, step: &str) -> Result<(), Fail> {
    match step.strip_prefix('!') {
        Some(order) => obey(alloc, tale, order.trim_end()),
        None => play(alloc, &mut tale.system, step),
    }
}

/// Takes these steps, one after another. One that isn't so is printed.
fn go_on(rt: &HostRuntime, tale: &mut Tale, steps: &str) -> Result<(), Fail> {
    for step in steps.split("> ") {
        let found = take_step(rt.alloc(), tale, step);
        if found.is_err() {
            let _ = println!(rt; "> {step}");
        }
        found?;
    }
    Ok(())
}

/// A story over nothing, whose title is printed where it isn't so.
fn told_or_named(rt: &HostRuntime, story: &str) -> Result<(), Fail> {
    let (title, steps) = story.split_once('\n').unwrap_or((story, ""));
    let mut tale = Tale {
        system: nothing(rt.alloc()),
        noted: nothing(rt.alloc()),
    };
    let found = go_on(rt, &mut tale, steps);
    if found.is_err() {
        let _ = println!(rt; "at {title}");
    }
    found
}

/// Tells these stories. A story begins with `# ` and its title, a step with `> `. A step is a run, as a row of `test_systems`
/// says it, or after `!` an order (`orders`):
///
///     # each block is written anew
///     > !stored
///     > !blocks 24
///     > migrate
///     pw
///     =
///     migrated 24
pub fn tell(rt: &HostRuntime, stories: &str) -> Result<(), Fail> {
    for story in stories.split("# ") {
        if !story.is_empty() {
            told_or_named(rt, story)?;
        }
    }
    Ok(())
}
