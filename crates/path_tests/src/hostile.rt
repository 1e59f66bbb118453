// Blobs that show no tree: each command returns, with an error or a reply of its form.
use crate::site::{Site, empty_site, parsed, shown};
use block_id::BlockId;
use fs_model::{Attr, FILE_MODE, Kind, Moment, Name};
use path_layer::dir_blob::insert;
use path_layer::dir_entries::Entry;
use path_layer::fs_blobs::{Header, new_blob};
use std::alloc::Global;
use std::test::Fail;

/// What a line is answered, or that the blobs are no tree.
fn seen(alloc: Global, site: &mut Site, line: &str) -> Result<String, Fail> {
    let now = Moment::new(9, 0).ok_or("nanos")?;
    shown(alloc, site, now, &parsed(alloc, line)?)
}

/// The id of a new file's blob.
fn new_file(alloc: Global, site: &mut Site) -> Result<BlockId, Fail> {
    let header = Header {
        kind: Kind::File,
        parent: site.root,
    };
    Ok(new_blob(alloc, &mut site.blobs, &header, b"no entry")?)
}

/// An entry `/a` that is said to be a directory, of this blob.
fn name_in_root(alloc: Global, site: &mut Site, blob: BlockId) -> Result<(), Fail> {
    let zero = Moment::new(0, 0).ok_or("nanos")?;
    let entry = Entry {
        name: Name::new(b"a".to_vec(alloc)?).ok_or("a name")?,
        attr: Attr {
            kind: Kind::Directory,
            mode: FILE_MODE,
            uid: 0,
            gid: 0,
            atime: zero,
            mtime: zero,
            ctime: zero,
        },
        blob,
    };
    Ok(insert(alloc, &mut site.blobs, &site.root, &entry)?)
}

/// Names in the root what a title says.
fn name_what(alloc: Global, site: &mut Site, title: &str) -> Result<(), Fail> {
    let blob = match title {
        "an entry without its blob" => BlockId([9; 16]),
        "a file where a directory is said" => new_file(alloc, site)?,
        "a directory that is below itself" => site.root,
        _ => return Err(Fail::from("a title")),
    };
    name_in_root(alloc, site, blob)
}

/// The lines of a story are answered so, one after another.
fn play(alloc: Global, site: &mut Site, story: &str) -> Result<(), Fail> {
    let (title, rows) = story
        .split_once("\n> ")
        .ok_or("a title stands before rows")?;
    name_what(alloc, site, title)?;
    for row in rows.split("> ") {
        let (line, wanted) = row.split_once('\n').ok_or("an answer stands below a line")?;
        let found = seen(alloc, site, line)?;
        if found.as_str() != wanted {
            return Err(Fail::new(format_args!("{title}: {line} is answered {found:?}")));
        }
    }
    Ok(())
}

/// A story over blobs of its own.
fn is_so(alloc: Global, story: &str) -> Result<(), Fail> {
    let mut site = empty_site(alloc)?;
    play(alloc, &mut site, story)
}

/// A move within a directory changes nothing of what moves, so it doesn't ask for it; one to another directory does.
const STORIES: &str = "# an entry without its blob
> ls /a
no tree
> mkfile /a/b
no tree
> mv /a /b
ok
> mkdir /d
ok
> mv /b /d/b
no tree
# a file where a directory is said
> ls /a
no tree
> stat /a/b
no tree
# a directory that is below itself
> ls /a/a/a
list 1
d a
";

#[test]
fn blobs_that_are_no_tree_are_found_or_answer(rt: HostRuntime) -> Result<(), Fail> {
    for story in STORIES.split("# ") {
        if !story.is_empty() {
            is_so(rt.alloc(), story)?;
        }
    }
    Ok(())
}
