// Records of payloads without the zeros that they end with.
ghost use Rattle.std.specs.Prelude.{◌≡◌, ◌≤◌, ◌<◌, ◌+◌, true, length, replicate, IfOk};
ghost use Rattle.std.specs.declared.option.Option.TheVariants.{Some};
ghost use Rattle.block_versions.specs.sealed_store.Drafts.{filled};
ghost use Rattle.block_versions.specs.declared.block_record.TheConstants.{HEAD_LEN, OVERHEAD};
ghost use Rattle.block_versions.specs.BlockRecords.{record_of};

use block_id::{BlockId, Memory};
use block_versions::write_record;
use std::alloc::Global;

/// So many first bytes of a payload are kept where all behind them are zeros.
const SHORT: usize = 256;

/// It has no early end, so that the compiler takes many bytes in one step.
fn are_zeros(bytes: &[u8]) -> bool
    ensures { result ≡ true → bytes.now ≡ replicate (length bytes.now) 0 }
{
    bytes.iter().fold(0, |any, byte| any | *byte) == 0
}

/// The first bytes of a payload where all behind them are zeros, else all of it.
fn without_last_zeros(payload: &[u8]) -> &[u8]
    ensures filled { filled (length payload.now) result.now ≡ payload.now }
    ensures len { length result.now ≤ length payload.now }
{
    let (front, rest) = payload.split_at(payload.len().min(SHORT));
    if are_zeros(rest) { front } else { payload }
}

/// The record of a payload at this version, by this client, without the zeros that the payload ends with: filled up with them,
/// it is read as that record.
pub(crate) fn write_front(
    alloc: Global,
    id: &BlockId,
    client: u32,
    version: u64,
    payload: &[u8],
) -> Result<Vec<u8>, Memory>
    requires client { 0 < client }
    requires version { 0 < version }
    ensures len { IfOk result (λ front. length front.items ≤ HEAD_LEN + length payload.now) }
    ensures record { IfOk result (λ front. record_of (OVERHEAD + length payload.now) (filled (HEAD_LEN + length payload.now) front.items)
        ≡ Some (record { id = id.now.0; client = client; version = version; payload = payload.now })) }
{
    let kept = without_last_zeros(payload);
    let front = write_record(alloc, id, client, version, kept)?;
    Ok(front)
}
