// Lines of the language, and the commands that they and numbers make.

use crate::plain_trees::text_of;
use crate::rows::{Taken, tell};
use answers::script_text::{LineError, parse_line};
use fs_model::{Command, Path, Reply};
use std::alloc::Global;
use std::test::Fail;
use workload::generated;

/// The path as its names, each behind a slash.
fn path_text(alloc: Global, path: &Path) -> Result<String, Fail> {
    let mut text = Vec::new(alloc);
    for name in path.names() {
        text.push(b'/')?;
        text.extend_from_slice(name.as_slice())?;
    }
    if text.is_empty() {
        text.push(b'/')?;
    }
    Ok(String::from_utf8(text)?)
}

/// A line of these words, the path and the numbers behind it.
fn line_at(alloc: Global, front: &str, path: &Path, numbers: &[u64]) -> Result<String, Fail> {
    let path = path_text(alloc, path)?;
    let mut line = format!(in alloc; "{front} {path}")?;
    for number in numbers {
        line.push_str(&format!(in alloc; " {number}")?)?;
    }
    Ok(line)
}

/// The command of a link.
fn link_text(alloc: Global, target: &[u8], path: &Path) -> Result<String, Fail> {
    let target = String::from_utf8(target.to_vec(alloc)?)?;
    line_at(alloc, &format!(in alloc; "symlink {target}")?, path, &[])
}

/// The command of a write: of its bytes how many there are, the first and the last.
fn write_text(alloc: Global, path: &Path, from: u64, bytes: &[u8]) -> Result<String, Fail> {
    let first = bytes.first().copied().unwrap_or(99);
    let last = bytes.last().copied().unwrap_or(99);
    let numbers = [from, bytes.len() as u64, u64::from(first), u64::from(last)];
    line_at(alloc, "write", path, &numbers)
}

/// A command that fits as a line, in which each number is decimal, and each moment its seconds and its nanoseconds.
fn command_text(alloc: Global, command: &Command) -> Result<String, Fail> {
    if !command.fits() {
        return Err(Fail::new("a command that doesn't fit"));
    }
    match command {
        Command::Mkdir(path) => line_at(alloc, "mkdir", path, &[]),
        Command::Mkfile(path) => line_at(alloc, "mkfile", path, &[]),
        Command::Rm(path) => line_at(alloc, "rm", path, &[]),
        Command::Mv(from, to) => line_at(alloc, &line_at(alloc, "mv", from, &[])?, to, &[]),
        Command::Symlink(target, path) => link_text(alloc, target.as_slice(), path),
        Command::Read(path, from, count) => line_at(alloc, "read", path, &[*from, *count]),
        Command::Write(path, from, bytes) => write_text(alloc, path, *from, bytes.as_slice()),
        Command::Truncate(path, len) => line_at(alloc, "truncate", path, &[*len]),
        Command::Chmod(path, mode) => line_at(alloc, "chmod", path, &[u64::from(*mode)]),
        Command::Chown(path, uid, gid) => {
            line_at(alloc, "chown", path, &[u64::from(*uid), u64::from(*gid)])
        }
        Command::Utime(path, read, changed) => {
            let nanos = [u64::from(read.nanos()), u64::from(changed.nanos())];
            let numbers = [read.secs(), nanos[0], changed.secs(), nanos[1]];
            line_at(alloc, "utime", path, &numbers)
        }
        _ => Err(Fail::new("another command")),
    }
}

/// The command of a line, or the reply to a line that makes none.
pub fn line_told(alloc: Global, line: &str) -> Result<String, Fail> {
    match parse_line(alloc, line.as_bytes()) {
        Ok(command) => command_text(alloc, &command),
        Err(LineError::Bad(error)) => text_of(alloc, &Reply::Error(error)),
        Err(LineError::Memory) => Err(Fail::new("memory")),
    }
}

/// The first has no bytes.
const REFUSED: &str = "# error bad-line

frob /
LS /
ls
ls / /
ls  /
 ls /
ls /\x20
read /l 0
sync /
mkdir /a\\q
mkdir /\\
mkdir /\\x4
mkdir /\\x4g
mkdir /\\X41
symlink \\ /a
truncate /a 18446744073709551616
truncate /a 99999999999999999999
truncate /a 000000000000000000001
truncate /a +1
truncate /a 1x
chown /a 0 4294967296
chmod /a 8
chmod /a 00000
utime /a 1 1.000000000
utime /a .000000000 1.000000000
utime /a 1.00000000 1.000000000
utime /a 1.000000000 1.0000000000
write /a 0 abc
write /a 0 0g
write /a 0 --
write . x -
mv . \\
write /a 0 {00*524282}0
write /a 0 {00*524283}
# error invalid
mkdir a
mkdir //
mkdir /.
mkdir /a/..
mkdir /\\x00
mkdir /\\x2e\\x2E
symlink a\\x00 /b
mkdir {/a*2000}/.
mv . /{a*256}
# error name-too-long
mkdir /{a*256}
mkdir /{\\x61*256}
mkdir {/a*2048}b
mkdir {/.*2048}b
mv /{a*256} .
symlink {t*4096} /a
symlink {t*4096} .
";

#[test]
fn lines_of_another_form_or_length_are_refused(rt: HostRuntime) -> Result<(), Fail> {
    tell(&rt, &Taken::Line, REFUSED)
}

/// Escapes, numbers and lengths at their limits are among them.
const READ: &str = "# truncate /a 18446744073709551615
truncate /a 18446744073709551615
# chown /a 4294967295 0
chown /a 00000000004294967295 0
# symlink a//.. /b
symlink a//.. /b
# mkdir /a\r
mkdir /a\r
# mkdir /{a*255}
mkdir /{a*255}
mkdir /{\\x61*255}
# mkdir {/a*2048}
mkdir {/a*2048}
# symlink {t*4095} /a
symlink {t*4095} /a
# write /a 0 524282 0 0
write /a 0 {00*524282}
# write /JK  7 2 10 240
write /\\x4a\\x4B\\x20 00000000000000000007 0aF0
# utime / 0 999999999 18446744073709551615 1
utime \\x2f 0.999999999 18446744073709551615.000000001
# chmod /a/b 4095
chmod /a/b 7777
";

/// The command of a number, with nothing said of it: its contract would be carried through all that follows.
fn command_of(alloc: Global, number: u64) -> Result<Command, Fail> {
    Ok(generated(alloc, number)?)
}

/// The command that a number makes.
pub fn number_told(alloc: Global, word: &str) -> Result<String, Fail> {
    let number: u64 = word.parse().ok().ok_or("a number")?;
    let command = command_of(alloc, number)?;
    command_text(alloc, &command)
}

/// The first group, and a size that wraps.
const GENERATED: &str = "# mkdir /d3
0
# mkfile /d3/f0
1
# write /d3/f0 0 40 0 0
2
# mv /d3/f0 /d3/g0
3
# truncate /d3/g0 11
4
# symlink g0 /d3/l0
5
# read /d3/g0 0 1000
6
# rm /d3/l0
7
# mkdir /d8
8
# truncate /d4/g29 84
236
# write /d8/f257 0 40 1 1
2058
";

#[test]
fn lines_and_numbers_make_commands(rt: HostRuntime) -> Result<(), Fail> {
    tell(&rt, &Taken::Line, READ)?;
    tell(&rt, &Taken::Number, GENERATED)
}
