// Lines and their replies, on blobs and on the tree in memory, and moves over the whole tower.
use crate::site::{Site, answer, empty_site};
use crate::tower::{answers, empty_store};
use fs_model::Moment;
use std::alloc::Global;
use std::test::Fail;

/// The second, the line and the reply of a row.
fn parts(row: &str) -> Option<(u64, &str, &str)> {
    let (secs, rest) = row.split_once(' ')?;
    let (line, reply) = rest.split_once('\n')?;
    Some((secs.parse().ok()?, line, reply))
}

/// The blobs and the tree in memory answer the line of a row so.
fn is_answered(alloc: Global, site: &mut Site, nanos: u32, row: &str) -> Result<(), Fail> {
    let (secs, line, text) = parts(row).ok_or("a row")?;
    let now = Moment::new(secs, nanos).ok_or("nanos")?;
    let reply = answer(alloc, site, now, line)?;
    if reply.as_str() == text {
        Ok(())
    } else {
        Err(Fail::new(format_args!("{reply:?} and not so: {row}")))
    }
}

/// The rows are answered so, one after another, so many nanoseconds after their seconds. Each row begins with `> `. One that
/// isn't answered so is printed.
fn all_are_answered(rt: &HostRuntime, nanos: u32, rows: &str) -> Result<(), Fail> {
    let mut site = empty_site(rt.alloc())?;
    for row in rows.split("> ") {
        if !row.is_empty() {
            let found = is_answered(rt.alloc(), &mut site, nanos, row);
            if found.is_err() {
                let _ = println!(rt; "at {row}");
            }
            found?;
        }
    }
    Ok(())
}

/// The lines of the rows, and their replies.
fn apart(alloc: Global, rows: &str) -> Result<(String, String), Fail> {
    let mut lines = String::new(alloc);
    let mut replies = String::new(alloc);
    for row in rows.split("> ") {
        if !row.is_empty() {
            let (_, line, text) = parts(row).ok_or("a row")?;
            lines.push_str(line)?;
            lines.push('\n')?;
            replies.push_str(text)?;
        }
    }
    Ok((lines, replies))
}

/// Moves, and what each refusal stands before.
const MOVES: &str = "> 100 mkdir /a
ok
> 100 mkdir /b
ok
> 100 mkdir /c
ok
> 100 mkfile /c/x
ok
> 100 mkfile /f
ok
> 100 mv /a /a/b
error invalid
> 100 mv /a /b
ok
> 100 mv /b /c
error not-empty
> 100 mv /f /b
error is-directory
> 100 mv /b /f
error not-directory
> 100 mv /f /f
ok
> 100 mv / /b
error busy
> 100 mv /zz /b
error no-entry
> 100 ls /
list 3
d b
d c
f f
> 100 mv /c /b/c
ok
> 100 stat /b/c/x
stat f 644 0 0 0 100.000000005 100.000000005 100.000000005
> 100 ls /c
error no-entry
> 100 write /b/c/x 0 6162
ok
> 100 read /b/c/x 0 10
data 6162
> 100 mv /b /z
ok
> 100 read /z/c/x 0 100
data 6162
> 100 mv /z /b
ok
> 100 truncate /b/c/x 0
ok
> 100 stat /b/c/x
stat f 644 0 0 0 100.000000005 100.000000005 100.000000005
";

/// Files and links.
const FILES: &str = "> 9 mkfile /f
ok
> 9 write /f 5 6162
ok
> 9 read /f 0 100
data 00000000006162
> 9 read /f 7 1
data -
> 9 write /f 9 -
ok
> 9 write /f 18446744073709551615 6162
error too-large
> 9 truncate /f 6
ok
> 9 chmod /f 600
ok
> 9 chown /f 7 8
ok
> 9 utime /f 1.000000000 2.000000000
ok
> 9 stat /f
stat f 600 7 8 6 1.000000000 2.000000000 9.000000000
> 9 stat /
stat d 755 0 0 0 0.000000000 0.000000000 0.000000000
> 9 chmod / 700
error busy
> 9 readlink /f
error not-link
> 9 symlink /x /l
ok
> 9 readlink /l
link /x
> 9 ls /l/x
error not-directory
> 9 read /l 0 1
error invalid
";

/// Removals.
const STAYS: &str = "> 9 mkdir /d
ok
> 9 mkfile /d/f
ok
> 9 rmdir /d
error not-empty
> 9 rmdir /d/f
error not-directory
> 9 rm /d
error is-directory
> 9 rmdir /q
error no-entry
> 9 read / 0 1
error is-directory
> 9 truncate /d/f 67108865
error too-large
> 9 rm /d/f
ok
> 9 rmdir /d
ok
> 9 sync
ok
> 9 ls /
list 0
";

/// Changes of children, and the moments of their directories.
const TOUCHES: &str = "> 9 mkdir /a
ok
> 9 mkdir /b
ok
> 9 mkfile /a/f
ok
> 9 utime /a 1.000000000 2.000000000
ok
> 9 utime /b 1.000000000 2.000000000
ok
> 9 mv /a/f /b/f
ok
> 9 stat /a
stat d 755 0 0 0 1.000000000 9.000000000 9.000000000
> 9 stat /b
stat d 755 0 0 0 1.000000000 9.000000000 9.000000000
> 9 utime /b 1.000000000 2.000000000
ok
> 9 mv /b/f /b/f
ok
> 9 write /b/f 0 61
ok
> 9 stat /b
stat d 755 0 0 0 1.000000000 2.000000000 9.000000000
> 10 mkdir /b/d
ok
> 10 stat /b
stat d 755 0 0 0 1.000000000 10.000000000 10.000000000
> 11 mkfile /b/d/g
ok
> 11 stat /b/d
stat d 755 0 0 0 10.000000000 11.000000000 11.000000000
> 11 stat /b
stat d 755 0 0 0 1.000000000 10.000000000 10.000000000
> 12 symlink t /b/d/l
ok
> 12 stat /b/d
stat d 755 0 0 0 10.000000000 12.000000000 12.000000000
> 13 rm /b/d/l
ok
> 13 stat /b/d
stat d 755 0 0 0 10.000000000 13.000000000 13.000000000
> 14 mv /b/d/g /b/d/h
ok
> 14 stat /b/d
stat d 755 0 0 0 10.000000000 14.000000000 14.000000000
> 15 rm /b/d/q
error no-entry
> 15 mkdir /b/d/h
error exists
> 15 stat /b/d
stat d 755 0 0 0 10.000000000 14.000000000 14.000000000
> 16 mkdir /b/e
ok
> 17 mv /b/d /b/e/d
ok
> 17 stat /b
stat d 755 0 0 0 1.000000000 17.000000000 17.000000000
> 17 stat /b/e
stat d 755 0 0 0 16.000000000 17.000000000 17.000000000
> 17 stat /b/e/d
stat d 755 0 0 0 10.000000000 14.000000000 17.000000000
> 18 rm /b/e/d/h
ok
> 18 stat /b/e/d
stat d 755 0 0 0 10.000000000 18.000000000 18.000000000
> 19 rmdir /b/e/d
ok
> 19 stat /b/e
stat d 755 0 0 0 16.000000000 19.000000000 19.000000000
> 19 stat /b
stat d 755 0 0 0 1.000000000 17.000000000 17.000000000
> 20 mkdir /b/e/x
ok
> 21 mv /a /b/e/x
ok
> 21 stat /b/e
stat d 755 0 0 0 16.000000000 21.000000000 21.000000000
> 21 stat /b/e/x
stat d 755 0 0 0 1.000000000 9.000000000 21.000000000
> 21 stat /
stat d 755 0 0 0 0.000000000 0.000000000 0.000000000
";

#[test]
fn the_worked_rows_are_answered(rt: HostRuntime) -> Result<(), Fail> {
    all_are_answered(&rt, 5, MOVES)?;
    all_are_answered(&rt, 0, FILES)?;
    all_are_answered(&rt, 0, STAYS)?;
    all_are_answered(&rt, 0, TOUCHES)
}

#[test]
fn moves_over_the_tower_follow_the_order_of_errors(rt: HostRuntime) -> Result<(), Fail> {
    let (lines, replies) = apart(rt.alloc(), MOVES)?;
    let found = answers(rt.alloc(), empty_store(rt.alloc())?, &lines)?;
    assert_eq!(rt; found.as_str(), replies.as_str());
    Ok(())
}
