// The record in a block's file: its layout, read and written.
ghost use Rattle.std.specs.Prelude.{◌≡◌, ◌≤◌, ◌<◌, ◌+◌, ◌++◌, drop, length, IfOk, OnOk, IfSome, Some};
ghost use Rattle.std.specs.Int.{w16, w32, w64, to_le_bytes};
ghost use Rattle.std.specs.Option.{option_map};
ghost use Rattle.sealed_store.specs.declared.sealed_store.TheConstants.{SEAL_LEN};
ghost use Rattle.block_versions.specs.BlockRecords.{record_from, record_of, text_of, with_payload};

use block_id::{BlockId, Memory};
use byte_fields::{put_id, put_u16, put_u32, put_u64, take_id, take_u16, take_u32, take_u64};
use sealed_store::SEAL_LEN;
use std::alloc::Global;

/// The format's number, with which each record begins.
pub const RECORD_FORMAT: u16 = 1;

/// The bytes of a record before its payload: format, id, client and version.
pub const HEAD_LEN: usize = 30;

/// The bytes of a block's file that aren't its payload.
pub const OVERHEAD: usize = SEAL_LEN + HEAD_LEN;

/// What stands before the payload, behind the format's number.
#[derive(Clone, Copy, PartialEq, Eq)]
pub struct Head {
    pub id: BlockId,
    /// The client that wrote it, from 1.
    pub client: u32,
    /// From 1.
    pub version: u64,
}

// ---- read

/// What stands before the payload in the record that a plaintext is, or its front. None where it is no record. How long a
/// block's file is, whoever opened it knows.
pub fn read_head(plain: &[u8]) -> Option<Head>
    ensures record { option_map (λ head. with_payload head (drop HEAD_LEN plain.now)) result ≡ record_from plain.now }
    ensures long { IfSome result (λ _. HEAD_LEN ≤ length plain.now) }
{
    let (head, _) = head_and_payload(plain)?;
    Some(head)
}

#[tactic(auto, unfolding(crate::specs::BlockRecords::record_from))]
fn head_and_payload(plain: &[u8]) -> Option<(Head, &[u8])>
    ensures { option_map (λ x. with_payload x.0 x.1.now) result ≡ record_from plain.now }
{
    let (format, rest) = take_u16(plain)?;
    let (id, rest) = take_id(rest)?;
    let (client, rest) = take_u32(rest)?;
    let (version, payload) = take_u64(rest)?;
    if format != RECORD_FORMAT || client == 0 || version == 0 {
        return None;
    }
    let head = Head {
        id,
        client,
        version,
    };
    Some((head, payload))
}

// ---- written

/// The record of a payload at this version, by this client.
pub fn write_record(
    alloc: Global,
    id: &BlockId,
    client: u32,
    version: u64,
    payload: &[u8],
) -> Result<Vec<u8>, Memory>
    requires client { 0 < client }
    requires version { 0 < version }
    ensures text { IfOk result (λ plain. plain.items ≡ text_of (record { id = id.now.0; client = client; version = version; payload = payload.now })) }
    ensures len { IfOk result (λ plain. length plain.items ≡ HEAD_LEN + length payload.now) }
    ensures record_of { IfOk result (λ plain. record_of (length plain.items + SEAL_LEN) plain.items ≡ Some (record { id = id.now.0; client = client; version = version; payload = payload.now })) }
{
    let mut plain = Vec::with_capacity(alloc, HEAD_LEN + payload.len())?;
    put_u16(&mut plain, RECORD_FORMAT)?;
    put_id(&mut plain, id)?;
    put_u32(&mut plain, client)?;
    put_u64(&mut plain, version)?;
    plain.extend_from_slice(payload)?;
    Ok(plain)
}
