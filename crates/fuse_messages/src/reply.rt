// Replies.
ghost use Rattle.std.specs.Prelude.{◌≡◌, ◌-◌, ◌<◌, ◌≤◌, ◌^◌, [], length, drop, OnOk};
ghost use Rattle.fuse_messages.specs.Layout.{reply_header_text, reply_text};
ghost use Rattle.fuse_messages.specs.Numbers.{number_of};

use crate::ErrorNumber;
use block_id::Memory;
use byte_fields::put_u64;

/// Bytes of a reply's header.
pub const REPLY_HEADER: usize = 16;

/// The header of a reply of this length.
#[tactic(auto, unfolding(crate::specs::Layout::reply_header_text))]
fn reply_header(len: u32, code: u32, unique: u64) -> [u8; 16]
    ensures { result ≡ reply_header_text len code unique }
{
    let [a, b, c, d]: [u8; 4] = len.to_le_bytes();
    let [e, f, g, h]: [u8; 4] = code.to_le_bytes();
    let [i, j, k, l, m, n, o, p]: [u8; 8] = unique.to_le_bytes();
    [a, b, c, d, e, f, g, h, i, j, k, l, m, n, o, p]
}

/// The reply of an error, which takes no memory.
pub fn error_reply(unique: u64, error: ErrorNumber) -> [u8; 16]
    ensures { result ≡ reply_text unique (2 ^ 32 - number_of error) [] }
{
    reply_header(16, u32::MAX - error.number() + 1, unique)
}

/// Begins a reply that is no error: room for its header, behind which its body comes.
pub fn start_reply(out: &mut Vec<u8>) -> Result<(), Memory>
    ensures { OnOk result (length out.new.items ≡ 16) }
{
    out.clear();
    put_u64(out, 0)?;
    put_u64(out, 0)?;
    Ok(())
}

/// Writes the header before the body.
pub fn finish_reply(out: &mut [u8], unique: u64)
    requires header { 16 ≤ length out.old }
    requires short { length out.old < 2 ^ 32 }
    ensures { out.new ≡ reply_text unique 0 (drop 16 out.old) }
{
    let header = reply_header(out.len() as u32, 0, unique);
    out[..16].copy_from_slice(&header);
}
