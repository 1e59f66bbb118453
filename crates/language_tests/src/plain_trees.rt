// Replies of the tree in memory: the text of each, depth, and lengths past what is worth storing in blobs. More rows stand in
// `path_tests`, beside the tree of blobs.

use crate::rows::spread;
use answers::script_text::{LineError, parse_line, print_reply};
use fs_model::{Command, Moment, Reply};
use plain_tree::PlainTree;
use std::alloc::Global;
use std::test::Fail;

/// What a command that fits is answered at the last moment there is, with nothing said of it.
fn stepped(tree: &mut PlainTree, command: &Command) -> Result<Reply, Fail> {
    let now = Moment::new(18_446_744_073_709_551_615, 999_999_999).ok_or("nanos")?;
    if command.fits() {
        Ok(tree.step(now, command)?)
    } else {
        Err(Fail::new("a command that doesn't fit"))
    }
}

/// The reply to a line.
fn replied(alloc: Global, tree: &mut PlainTree, line: &str) -> Result<Reply, Fail> {
    match parse_line(alloc, line.as_bytes()) {
        Ok(command) => stepped(tree, &command),
        Err(LineError::Bad(error)) => Ok(Reply::Error(error)),
        Err(LineError::Memory) => Err(Fail::new("memory")),
    }
}

/// A reply as its lines, without the last end of line.
pub fn text_of(alloc: Global, reply: &Reply) -> Result<String, Fail> {
    let mut text = Vec::new(alloc);
    print_reply(reply, &mut text)?;
    if text.pop() != Some(b'\n') {
        return Err(Fail::new("a reply of lines"));
    }
    Ok(String::from_utf8(text)?)
}

/// A line is answered so.
fn is_answered(alloc: Global, tree: &mut PlainTree, line: &str, said: &str) -> Result<(), Fail> {
    let reply = replied(alloc, tree, line)?;
    let found = text_of(alloc, &reply)?;
    if found.as_str() == said {
        Ok(())
    } else {
        Err(Fail::new(format_args!("{line:?} is answered {found:?} and not {said:?}")))
    }
}

/// Each line is answered so, one after another: behind `> ` a line, in which `{41*3}` stands for 414141, and its reply.
fn all_are_answered(alloc: Global, tree: &mut PlainTree, rows: &str) -> Result<(), Fail> {
    for row in rows.split("> ") {
        if !row.is_empty() {
            let (line, said) = row.split_once('\n').ok_or("a reply stands below a line")?;
            let line = spread(alloc, line)?;
            is_answered(alloc, tree, &line, said.strip_suffix('\n').unwrap_or(said))?;
        }
    }
    Ok(())
}

/// Each form of a reply, and each error.
const REPLIES: &str = "> mkdir /a
ok
> symlink /x\\x7f /~\\x5c\\x20\\x0a\\xff!
ok
> ls /
list 2
d a
l ~\\x5c\\x20\\x0a\\xff!
> readlink /~\\x5c\\x20\\x0a\\xff!
link /x\\x7f
> ls /a
list 0
> mkfile /f
ok
> truncate /f 10
ok
> chmod /f 600
ok
> chown /f 7 4294967295
ok
> utime /f 100.000000005 100.000000005
ok
> stat /f
stat f 600 7 4294967295 10 100.000000005 100.000000005 18446744073709551615.999999999
> chmod /f 0
ok
> truncate /f 0
ok
> utime /f 100.000000005 100.000000005
ok
> stat /f
stat f 0 7 4294967295 0 100.000000005 100.000000005 18446744073709551615.999999999
> read /f 0 100
data -
> truncate /f 67108865
error too-large
> write /f 0 00af
ok
> read /f 0 100
data 00af
> rm /q
error no-entry
> mkdir /a
error exists
> ls /f
error not-directory
> rm /a
error is-directory
> mkdir /a/b
ok
> rmdir /a
error not-empty
> mv /a /a/b
error invalid
> mv / /b
error busy
> mkdir /{a*256}
error name-too-long
> readlink /f
error not-link
> frob /
error bad-line
";

#[test]
fn replies_are_printed(rt: HostRuntime) -> Result<(), Fail> {
    let mut tree = PlainTree::new(rt.alloc());
    all_are_answered(rt.alloc(), &mut tree, REPLIES)
}

/// Makes directories one in another, 2,048 deep.
fn go_down(alloc: Global, tree: &mut PlainTree) -> Result<(), Fail> {
    let mut line = String::from_str(alloc, "mkdir ")?;
    for _ in 0..2_048 {
        line.push_str("/d")?;
        is_answered(alloc, tree, &line, "ok")?;
    }
    Ok(())
}

/// The first of the directories moves to where the deepest is, and a file grows up to its limits.
const LIMITS: &str = "> mv /d {/d*2048}
error invalid
> mkfile /f
ok
> truncate /f 67108865
error too-large
> truncate /f 67108864
ok
> truncate /f 134217729
error too-large
> truncate /f 134217728
ok
";

#[test]
fn directories_stand_2048_deep_and_a_file_grows_up_to_its_limits(
    rt: HostRuntime,
) -> Result<(), Fail> {
    let mut tree = PlainTree::new(rt.alloc());
    go_down(rt.alloc(), &mut tree)?;
    all_are_answered(rt.alloc(), &mut tree, LIMITS)
}
