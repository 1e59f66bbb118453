// How many files and bytes there are, and how many calls were made since the last note.

use crate::changes::named;
use crate::inputs::number;
use crate::tale::Tale;
use outside::{Change, FileName};
use std::test::Fail;
use test_systems::count_blocks;
use test_systems::memory_outside::{Event, MemoryVault};

/// The bytes of the configuration's file, where it is there.
pub fn config_in(vault: &MemoryVault) -> Option<&[u8]> {
    for file in vault.files() {
        if file.name == FileName::Config {
            if let Change::Bytes(bytes) = &file.change {
                return Some(bytes.as_slice());
            }
        }
    }
    None
}

/// Whether a put of this file is one of these: `puts`, or `puts of` and the file's name.
fn is_put(name: &FileName, what: &str) -> bool {
    match what.strip_prefix("puts of ") {
        Some(word) => *name == named(word),
        None => what == "puts",
    }
}

/// Whether a call is one of these.
fn is_of(event: &Event, what: &str) -> bool {
    match event {
        Event::Put { name, .. } => is_put(name, what),
        Event::Got {
            name: FileName::Block(_),
            ..
        } => what == "gets",
        _ => false,
    }
}

/// The calls since the last note.
fn later(tale: &Tale) -> &[Event] {
    let before = match tale.notes.last() {
        Some(note) => note.calls,
        None => 0,
    };
    tale.system.vault.trace().get(before..).unwrap_or(&[])
}

/// How many of these calls are of this kind.
fn count_events(events: &[Event], what: &str) -> usize {
    let mut count = 0usize;
    for event in events {
        if is_of(event, what) {
            count = count.saturating_add(1);
        }
    }
    count
}

/// How many of these there are.
fn counted(tale: &Tale, what: &str) -> usize {
    match what {
        "blocks" => count_blocks(&tale.system.vault),
        "bytes of the configuration" => config_in(&tale.system.vault).unwrap_or(&[]).len(),
        "bytes of the record" => tale.system.keeper.kept().unwrap_or(&[]).len(),
        "calls" => later(tale).len(),
        _ => count_events(later(tale), what),
    }
}

/// There are so many, as in `blocks 7`.
pub fn is_counted(tale: &Tale, rest: &str) -> Result<(), Fail> {
    let (what, wanted) = rest
        .rsplit_once(' ')
        .ok_or("what is counted, and how many")?;
    let count = counted(tale, what);
    if number(wanted)? == count as u64 {
        Ok(())
    } else {
        Err(Fail::new(format_args!("{count} {what} and not {wanted}")))
    }
}
