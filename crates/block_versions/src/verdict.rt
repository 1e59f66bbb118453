// The verdict on what came for a block: the first reason that holds, or its payload.
ghost use Rattle.std.specs.Prelude.{◌≡◌, ◌≤◌, ◌+◌, List, ℕ, drop, length, IfSome, IfNone, Some};
ghost use Rattle.sealed_store.specs.BlockFiles.{SeenFile, IsWhole, front_seen};
ghost use Rattle.sealed_store.specs.Stores.{seen_file_of};
ghost use Rattle.block_versions.specs.BlockRecords.{record_from, with_payload};
ghost use Rattle.block_versions.specs.Verdicts.{judged_by, judged_record, judged, front_verdict, good, bad, verdict_of};

use crate::block_record::{HEAD_LEN, Head, read_head};
use block_id::{BlockId, Why};
use sealed_store::Seen;

/// What is wrong with a record for this id, client and known version.
fn mismatch(head: &Head, id: &BlockId, client: u32, known: u64) -> Option<Why>
    ensures some { IfSome result (λ why. (payload : List ℕ) → judged_record id.now.0 client known (Some (with_payload head.now payload)) ≡ bad why) }
    ensures none { IfNone result ((payload : List ℕ) → judged_record id.now.0 client known (Some (with_payload head.now payload)) ≡ good payload) }
{
    if head.id != *id {
        return Some(Why::WrongId(head.id));
    }
    if head.client != client {
        return Some(Why::ForeignClient(head.client));
    }
    if head.version == known {
        return None;
    }
    let found = head.version;
    if found < known {
        Some(Why::OldVersion { known, found })
    } else {
        Some(Why::AheadVersion { known, found })
    }
}

/// The payload of a record, in the record's own memory.
fn without_head(plain: Vec<u8>) -> Vec<u8>
    requires { HEAD_LEN ≤ length plain.items }
    ensures { result.items ≡ drop HEAD_LEN plain.items }
{
    let mut payload = plain;
    payload.copy_within(HEAD_LEN.., 0);
    payload.truncate(payload.len() - HEAD_LEN);
    payload
}

/// The payload of a plaintext, or what is wrong with it.
fn judge_plain(id: &BlockId, client: u32, known: u64, plain: Vec<u8>) -> Result<Vec<u8>, Why>
    ensures { verdict_of result ≡ judged_record id.now.0 client known (record_from plain.items) }
{
    let Some(head) = read_head(&plain) else {
        return Err(Why::BadRecord);
    };
    match mismatch(&head, id, client, known) {
        Some(why) => Err(why),
        None => Ok(without_head(plain)),
    }
}

/// The payload of what was seen for a block, or the first reason against it, whatever the plaintext's length.
fn judge_seen(id: &BlockId, client: u32, known: u64, seen: Seen) -> Result<Vec<u8>, Why>
    ensures { verdict_of result ≡ judged_by record_from id.now.0 client known (seen_file_of seen) }
{
    match seen {
        Seen::Absent => Err(Why::Missing),
        Seen::BadLength => Err(Why::BadLength),
        Seen::BadPrefix => Err(Why::BadPrefix),
        Seen::OldFormat => Err(Why::OldFormat),
        Seen::NotOpened => Err(Why::NotOpened),
        Seen::Plain(plain) => judge_plain(id, client, known, plain),
    }
}

/// The payload of what was seen for a block, or the first reason against it: a client asked for this id, which it knows
/// at version `known`. Of a plaintext that fills its file the head and the payload's front are enough: the verdict is the
/// same. It takes no memory.
pub fn judge(id: &BlockId, client: u32, known: u64, seen: Seen) -> Result<Vec<u8>, Why>
    ensures { (size most : ℕ) (whole : SeenFile) → IsWhole size whole → seen_file_of seen ≡ front_seen (HEAD_LEN + most) whole
        → verdict_of result ≡ front_verdict most (judged size id.now.0 client known whole) }
{
    judge_seen(id, client, known, seen)
}
