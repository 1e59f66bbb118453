// Random lines on blobs and on the tree in memory, and the attributes of each path after them.
use crate::site::{Site, answer, empty_site};
use fs_model::Moment;
use rand_core::Rng;
use rand_pcg::Pcg32;
use std::alloc::Global;
use std::test::Fail;

const SCRIPTS: u64 = 6;

const LINES: u64 = 40;

/// What random lines name, at most three directories deep.
const PATHS: &str =
    "/a /b /a/a /a/b /b/a /b/b /a/a/a /a/a/b /a/b/a /a/b/b /b/a/a /b/a/b /b/b/a /b/b/b";

/// The lines, in which a path stands for the star. The last has a second path behind it.
const FORMS: &str =
    "mkdir *|mkdir *|mkfile *|symlink t *|rmdir *|rm *|utime * 1.000000000 2.000000000|mv * ";

/// One of the fourteen paths.
fn path(chance: &mut Pcg32) -> &'static str {
    let number = (chance.next_u32() % 14) as usize;
    PATHS.split(' ').nth(number).unwrap_or("")
}

/// A line that makes, moves or removes something, or sets the times of something.
fn line(alloc: Global, chance: &mut Pcg32) -> Result<String, Fail> {
    let first = path(chance);
    let second = path(chance);
    let number = (chance.next_u32() % 8) as usize;
    let form = FORMS.split('|').nth(number).unwrap_or("");
    let (before, behind) = form.split_once('*').ok_or("a star")?;
    let last = if number == 7 { second } else { "" };
    Ok(format!(in alloc; "{before}{first}{behind}{last}")?)
}

/// A random line, and each path after it, are answered alike in blobs and in memory: the path has the same attributes, or is none.
fn play_line(alloc: Global, site: &mut Site, now: Moment, line: &str) -> Result<(), Fail> {
    answer(alloc, site, now, line)?;
    for path in PATHS.split(' ') {
        let stat = format!(in alloc; "stat {path}")?;
        answer(alloc, site, now, &stat)?;
    }
    Ok(())
}

/// One random script on a new tree.
fn play_script(alloc: Global, chance: &mut Pcg32) -> Result<(), Fail> {
    let mut site = empty_site(alloc)?;
    for i in 0..LINES {
        let now = Moment::new(100 + i, 0).ok_or("nanos")?;
        let line = line(alloc, chance)?;
        play_line(alloc, &mut site, now, &line)?;
    }
    Ok(())
}

#[test]
fn random_lines_leave_the_same_attributes(rt: HostRuntime) -> Result<(), Fail> {
    let mut chance = Pcg32::new(42, 54);
    for _ in 0..SCRIPTS {
        play_script(rt.alloc(), &mut chance)?;
    }
    Ok(())
}
