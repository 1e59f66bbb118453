// Stories of copies: over a tree in memory, and as runs over a file system, both beside a folder.
use crate::folders::on_folder;
use crate::inputs::spread;
use crate::plain_asker::PlainAsker;
use crate::singles::on_file;
use crate::systems::change_system;
use crate::trees::{empty_tree, on_tree};
use memory_host_folder::MemoryFolder;
use std::alloc::Global;
use std::test::Fail;
use test_systems::{System, nothing, play_beside};

/// A story so far.
#[derive(Drop)]
struct Tale {
    system: System,
    folder: MemoryFolder,
    asker: PlainAsker,
}

/// Does what an order says. Whether all is as it says.
fn obeyed(alloc: Global, tale: &mut Tale, order: &str) -> Result<bool, Fail> {
    let (whose, rest) = order.split_once(' ').ok_or("an order has two words")?;
    let (word, rest) = rest.split_once(' ').unwrap_or((rest, ""));
    match whose {
        "system" => change_system(alloc, &mut tale.system, word, rest),
        "folder" => on_folder(alloc, &mut tale.folder, word, rest),
        "tree" => on_tree(alloc, &mut tale.folder, &mut tale.asker, word, rest),
        "file" => on_file(alloc, &mut tale.asker, word, rest),
        _ => Ok(false),
    }
}

/// An order, and the runs that follow it.
fn take_step(alloc: Global, tale: &mut Tale, step: &str) -> Result<(), Fail> {
    let (order, runs) = step.split_once('\n').ok_or("an order is a line")?;
    if obeyed(alloc, tale, order)? {
        play_beside(alloc, &mut tale.system, &mut tale.folder, runs)
    } else {
        Err(Fail::new(format_args!("not so: {order}")))
    }
}

/// The steps of a story, one after another.
fn go_on(alloc: Global, tale: &mut Tale, steps: &str) -> Result<(), Fail> {
    for step in steps.split("! ") {
        if !step.is_empty() {
            take_step(alloc, tale, step)?;
        }
    }
    Ok(())
}

/// A story is so, which begins with no file system, an empty folder and an empty tree.
fn is_so(alloc: Global, story: &str) -> Result<(), Fail> {
    let steps = spread(alloc, story)?;
    let asker = empty_tree(alloc)?;
    let mut tale = Tale {
        system: nothing(alloc),
        folder: MemoryFolder::new(alloc),
        asker,
    };
    go_on(alloc, &mut tale, &steps)
}

/// A story, whose title is printed where it isn't so.
fn told_or_named(rt: &HostRuntime, story: &str) -> Result<(), Fail> {
    let (title, steps) = story.split_once('\n').ok_or("a story has a title")?;
    let found = is_so(rt.alloc(), steps);
    if found.is_err() {
        let _ = println!(rt; "at {title}");
    }
    found
}

/// Tells these stories. A story begins with `# ` and its title. Then come orders, each behind `! `, and after an order runs, as
/// rows of `test_systems` say them, beside the folder:
///
///     # a folder is imported once
///     ! system new
///     ! folder small
///     > import|/
///     pw
///     =
///     imported 1 1 1 2
///     ! folder rows / dd ll
///     ! tree import / 1 1 1 2
pub fn tell(rt: &HostRuntime, stories: &str) -> Result<(), Fail> {
    for story in stories.split("# ") {
        if !story.is_empty() {
            told_or_named(rt, story)?;
        }
    }
    Ok(())
}
