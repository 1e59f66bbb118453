// Stories of disks: how one comes to be, and what is wrong with it.
use crate::blobs::put_blob;
use crate::blocks::Disk;
use crate::comparing::compare;
use crate::contents::{contents, number};
use crate::nodes::node_text;
use std::alloc::Global;
use std::test::Fail;

/// Puts the blob `a`, or, as `a 1`, the node of that depth, with these contents.
fn put(alloc: Global, disk: &mut Disk, what: &str, pieces: &str) -> Result<(), Fail> {
    let (name, depth) = what.split_once(' ').unwrap_or((what, ""));
    let id = disk.named(name)?;
    let bytes = contents(alloc, disk, pieces)?;
    if depth.is_empty() {
        return put_blob(alloc, disk, id, bytes);
    }
    let depth = (number(depth)? % 256) as u8;
    disk.put(id, node_text(alloc, disk.payload, depth, &bytes)?)
}

/// Both the judge and a check find this.
fn is_found(alloc: Global, disk: &mut Disk, said: &str) -> Result<(), Fail> {
    let (word, name) = said.split_once(' ').unwrap_or((said, "-"));
    let id = disk.named(name)?;
    let found = compare(alloc, disk)?;
    if found.0 == word && found.1 == id {
        Ok(())
    } else {
        Err(Fail::new(format_args!("{} is found", found.0)))
    }
}

/// One step.
fn take_step(alloc: Global, disk: &mut Disk, step: &str) -> Result<(), Fail> {
    let (word, rest) = step.split_once(' ').ok_or("a step has two words")?;
    match word {
        "about" => {}
        "payload" => disk.payload = number(rest)?,
        "=" => is_found(alloc, disk, rest)?,
        "put" => {
            let (what, pieces) = rest.split_once(": ").ok_or("a put has contents")?;
            put(alloc, disk, what, pieces)?;
        }
        _ => return Err(Fail::from("this is no step")),
    }
    Ok(())
}

/// Takes these steps, one after another.
pub fn play(alloc: Global, disk: &mut Disk, steps: &str) -> Result<(), Fail> {
    for step in steps.split('\n') {
        if !step.is_empty() {
            take_step(alloc, disk, step)?;
        }
    }
    Ok(())
}

/// The steps with the parts of a row in their gaps, and the last part behind them.
fn filled(alloc: Global, steps: &str, row: &str) -> Result<String, Fail> {
    if steps.split('_').count() != row.split(" | ").count() {
        return Err(Fail::from("a row has a part for each gap, and one more"));
    }
    let mut text = String::new(alloc);
    for (piece, part) in steps.split('_').zip(row.split(" | ")) {
        text.push_str(piece)?;
        text.push_str(part)?;
    }
    Ok(text)
}

/// The steps are so with the parts of a row in their gaps.
fn is_so(alloc: Global, steps: &str, row: &str) -> Result<(), Fail> {
    let steps = filled(alloc, steps, row)?;
    play(alloc, &mut Disk::new(alloc), &steps)
}

/// A row, which is printed where it isn't so.
fn told_or_named(rt: &HostRuntime, title: &str, steps: &str, row: &str) -> Result<(), Fail> {
    let found = is_so(rt.alloc(), steps, row);
    if found.is_err() {
        let _ = println!(rt; "{title}: {row}");
    }
    found
}

/// Tells these stories. A story begins with `# ` and its title. Then come steps, and rows, each behind `> `: a row fills the
/// gaps `_` of the steps with its parts, and its last part says what both the judge and a check find:
///
///     # a target is no longer than 4095 bytes
///     payload 72
///     put /: header directory -, entry link x a
///     put a: header link /, text _
///     > {116*4095} | = fine
///     > {116*4096} | = bad-blob a
///
/// A block is called by a letter, but `/` is the root and `-` is none. A put is that of a blob, or of a node, with its depth:
/// `put a 1: ids b c`. `contents` says what stands behind a colon.
pub fn tell(rt: &HostRuntime, stories: &str) -> Result<(), Fail> {
    for story in stories.split("# ") {
        let (title, rest) = story.split_once('\n').unwrap_or(("", ""));
        let (steps, rows) = rest.split_once("> ").unwrap_or(("", ""));
        for row in rows.split("> ") {
            if !row.is_empty() {
                told_or_named(rt, title, steps, row)?;
            }
        }
    }
    Ok(())
}
