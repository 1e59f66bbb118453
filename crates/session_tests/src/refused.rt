// Runs in which one growth of memory at most is refused: no answer and no status changes but to want of memory, and what
// is kept afterwards is what was answered.

use std::alloc::Global;
use std::test::Fail;
use test_systems::{Run, Status, System, ZEROS, mended, nothing, outcome, plain, script};

/// How this run and a later one come out, in one of these ways. A way begins with `# `. It says how the run ends and what it
/// writes, and after `| ` each text that a later run over an outside that works may write then, `nothing` where it has no
/// bytes. The first way is that of a run that is refused nothing.
fn try_ways(
    alloc: Global,
    system: System,
    case: &Run<'_>,
    ways: &str,
    later: &Run<'_>,
) -> Result<(), Fail> {
    let mut zeros = ZEROS;
    // The test's own memory may be refused as well.
    let Ok((text, status, after)) = outcome(alloc, system, case, &mut zeros) else {
        return Ok(());
    };
    let shown = str::from_utf8(text.as_slice()).unwrap_or("bytes");
    match later_texts(ways, status, shown) {
        Some((texts, is_first)) => try_later(alloc, after, later, texts, is_first),
        None => Err(Fail::new(format_args!("{} after {shown:?}", status.code()))),
    }
}

/// What a later run may write where this one ended and wrote so, and whether that is the first way.
fn later_texts<'a>(ways: &'a str, status: Status, text: &str) -> Option<(&'a str, bool)> {
    for (number, way) in ways.split("# ").enumerate() {
        let (end, rest) = way.split_once('\n').unwrap_or(("", ""));
        let (written, texts) = rest.split_once("| ").unwrap_or((rest, ""));
        let ended = match status {
            Status::Done => "done",
            _ => status.text(),
        };
        if end == ended && written == text {
            return Some((texts, number == 1));
        }
    }
    None
}

/// How the later run ends, which may be refused memory where the first wasn't.
fn try_later(
    alloc: Global,
    system: System,
    later: &Run<'_>,
    texts: &str,
    may_want: bool,
) -> Result<(), Fail> {
    let Ok(system) = mended(alloc, system) else {
        return Ok(());
    };
    let mut zeros = ZEROS;
    let Ok((text, status, _)) = outcome(alloc, system, later, &mut zeros) else {
        return Ok(());
    };
    let shown = str::from_utf8(text.as_slice()).unwrap_or("bytes");
    if may_want && (status == Status::Memory || shown == "memory\n") || is_one_of(texts, shown) {
        return Ok(());
    }
    Err(Fail::new(format_args!(
        "{} after {shown:?} in the later run, and not {texts:?}",
        status.code()
    )))
}

/// Whether this is one of the texts.
fn is_one_of(texts: &str, shown: &str) -> bool {
    for text in texts.split("| ") {
        if text == shown || (text == "nothing\n" && shown.is_empty()) {
            return true;
        }
    }
    false
}

/// A new file system under the password `pw`, or None where memory for it was refused.
fn made(alloc: Global) -> Result<Option<System>, Fail> {
    let words = ["create", "--scrypt-n", "16"];
    let mut zeros = ZEROS;
    match outcome(alloc, nothing(alloc), &plain(&words, "pw"), &mut zeros) {
        Ok((_, Status::Done, system)) => Ok(Some(system)),
        Ok((_, Status::Memory, _)) | Err(_) => Ok(None),
        Ok((_, status, _)) => Err(Fail::new(format_args!("{} of create", status.code()))),
    }
}

/// Where memory is refused, the empty tree is kept, or nothing.
const CREATES: &str = "\
# done
created 00000000000000000000000000000000
| list 0
# out of memory
| list 0
| nothing
";

#[test]
fn create_wants_memory_only(rt: HostRuntime) -> Result<(), Fail> {
    let alloc = rt.alloc();
    let words = ["create", "--scrypt-n", "16"];
    let case = plain(&words, "pw");
    let later = plain(&["ls", "/"], "pw");
    try_ways(alloc, nothing(alloc), &case, CREATES, &later)
}

/// In the sixth way closing wants memory, before its first save or after it.
const WRITES: &str = "\
# done
ok
ok
data 00000000006162
data -
| data 00000000006162
# done
memory
error no-entry
error no-entry
error no-entry
| error no-entry
# done
ok
memory
data -
data -
| data -
# done
ok
ok
memory
data -
| data 00000000006162
# done
ok
ok
data 00000000006162
memory
| data 00000000006162
# out of memory
ok
ok
data 00000000006162
data -
| error no-entry
| data 00000000006162
# out of memory
| error no-entry
";

#[test]
fn a_session_wants_memory_only(rt: HostRuntime) -> Result<(), Fail> {
    let alloc = rt.alloc();
    let Some(system) = made(alloc)? else {
        return Ok(());
    };
    let lines = "mkfile /f\nwrite /f 5 6162\nread /f 0 100\nread /f 7 1\n";
    let Ok(input) = script(alloc, lines) else {
        return Ok(());
    };
    let words = ["read", "/f", "0", "100"];
    let later = plain(&words, "pw");
    try_ways(alloc, system, &plain(&["shell"], &input), WRITES, &later)
}

const SYNCS: &str = "\
# block directory fault
ok
fault directory
| list 1
d a
# done
memory
ok
| list 0
# block directory fault
ok
memory
| list 1
d a
# out of memory
ok
fault directory
| list 1
d a
# out of memory
| list 0
";

#[test]
fn a_sync_that_fails_wants_memory_only(rt: HostRuntime) -> Result<(), Fail> {
    let alloc = rt.alloc();
    let Some(mut system) = made(alloc)? else {
        return Ok(());
    };
    system.vault.fail_from(2);
    let Ok(input) = script(alloc, "mkdir /a\nsync\n") else {
        return Ok(());
    };
    let later = plain(&["ls", "/"], "pw");
    try_ways(alloc, system, &plain(&["shell"], &input), SYNCS, &later)
}

/// Where memory is refused, the new password opens it, or the old one still does.
const CHANGES: &str = "\
# done
changed
| list 0
# out of memory
| list 0
| nothing
";

#[test]
fn a_change_of_password_wants_memory_only(rt: HostRuntime) -> Result<(), Fail> {
    let alloc = rt.alloc();
    let Some(system) = made(alloc)? else {
        return Ok(());
    };
    let later = plain(&["ls", "/"], "q");
    let case = plain(&["passwd"], "pw\nq\n");
    try_ways(alloc, system, &case, CHANGES, &later)
}
