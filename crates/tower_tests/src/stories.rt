// Stories: sessions of a client one after another, with what is done to the directory and the record between them.

use crate::orders::obey;
use crate::sessions::session;
use crate::site::{NEWER, Site, begun};
use crate::tower::Tower;
use std::test::Fail;

/// One line: a session, or an order. Where it isn't so, the title of its story and the line are printed.
fn follow_line<S: Tower>(
    rt: &HostRuntime,
    site: &mut Site,
    title: &str,
    line: &str,
) -> Result<(), Fail> {
    let done = match line.strip_prefix("> ") {
        Some(steps) => session::<S>(rt.alloc(), site, steps),
        None => obey(rt.alloc(), site, line),
    };
    if done.is_err() {
        let _ = println!(rt; "{title}\n{line}");
    }
    done
}

/// A title, and the lines of its story.
fn tell_one<S: Tower>(rt: &HostRuntime, story: &str) -> Result<(), Fail> {
    let (title, lines) = story.split_once('\n').ok_or("a story has a title")?;
    let mut site = begun(rt.alloc(), NEWER)?;
    for line in lines.split('\n') {
        if !line.is_empty() {
            follow_line::<S>(rt, &mut site, title, line)?;
        }
    }
    Ok(())
}

/// Tells these stories over this kind of store, each over an empty directory and a record that knows no block. A story begins
/// with `# ` and its title. A line after `> ` is a session (`sessions`), any other an order (`orders`):
///
///     # a file that was rolled back is refused
///     > commit a=5, sync ok ok
///     > commit a=6, sync ok ok
///     note a=a
///     > commit a=7, sync ok ok
///     first-get noted
///     > load a=known-3-found-2
pub(crate) fn tell<S: Tower>(rt: &HostRuntime, stories: &str) -> Result<(), Fail> {
    for story in stories.split("# ") {
        if !story.is_empty() {
            tell_one::<S>(rt, story)?;
        }
    }
    Ok(())
}
