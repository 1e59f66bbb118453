// What a folder's log holds of each call.
ghost use Rattle.std.specs.Prelude.{◌≡◌, List, ◌∷◌, Bool, IfOk, OnErr, if◌then◌else◌};
ghost use Rattle.outside.specs.Trace.{got, put, removed};
ghost use Rattle.outside.specs.View.{at_of, bytes_of};
ghost use Rattle.real_outside.specs.FolderLog.{calls_of, name_of};
ghost use Rattle.real_outside.specs.Saves.{save_of};

use call_log::CallLog;
use outside::{FileName, GetFail};

const MISSED: u64 = 0;

const GOT: u64 = 1;

const PUT: u64 = 2;

const REMOVED: u64 = 3;

/// Whether it is a block's file, and the block's id.
fn parts(name: &FileName) -> (u64, &[u8])
    ensures { name_of result.0 result.1.now ≡ at_of name.now }
{
    match name {
        FileName::Config => (0, &[]),
        FileName::Block(id) => (1, &id.0),
    }
}

/// A get, where it was answered.
pub(crate) fn note_get(
    log: &mut CallLog,
    name: &FileName,
    max: usize,
    answer: &Result<Option<Vec<u8>>, GetFail>,
)
    ensures ok { IfOk answer.now (λ found. calls_of log.new.events ≡ got (at_of name.now) max (bytes_of found) ∷ calls_of log.old.events) }
    ensures err { OnErr answer.now (calls_of log.new.events ≡ calls_of log.old.events) }
{
    let (place, id) = parts(name);
    match answer {
        Ok(Some(bytes)) => log.note(&[GOT, place, max as u64], id, bytes),
        Ok(None) => log.note(&[MISSED, place, max as u64], id, &[]),
        Err(_) => {}
    }
}

/// A put, with whether it answered ok.
pub(crate) fn note_put(log: &mut CallLog, name: &FileName, bytes: &[u8], is_ok: bool)
    ensures { calls_of log.new.events ≡ put (at_of name.now) bytes.now is_ok ∷ calls_of log.old.events }
{
    let (place, id) = parts(name);
    log.note(&[PUT, place, u64::from(is_ok)], id, bytes);
}

/// A removal, with whether it answered ok.
pub(crate) fn note_removal(log: &mut CallLog, name: &FileName, is_ok: bool)
    ensures { calls_of log.new.events ≡ removed (at_of name.now) is_ok ∷ calls_of log.old.events }
{
    let (place, id) = parts(name);
    log.note(&[REMOVED, place, u64::from(is_ok)], id, &[]);
}

/// A save, with whether it answered ok.
pub(crate) fn note_save(log: &mut CallLog, bytes: &[u8], is_ok: bool)
    ensures { log.new.events ≡ save_of (if is_ok then 1 else 0) bytes.now ∷ log.old.events }
{
    log.note(&[u64::from(is_ok)], &[], bytes);
}
