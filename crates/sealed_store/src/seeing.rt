// How a block's file is seen.
ghost use Rattle.std.specs.Prelude.{◌≡◌, ◌≤◌, nat_lt, length, take, drop};
ghost use Rattle.std.specs.Option.{option_map};
ghost use Rattle.seal_api.specs.Sealing.{middle, shown};
ghost use Rattle.block_id.specs.Formats.{prefix_of, format_in, extra_of, number_of};
ghost use Rattle.outside.specs.View.{bytes_of};
ghost use Rattle.sealed_store.specs.declared.sealed_store.TheConstants.{SEAL_LEN};
ghost use Rattle.sealed_store.specs.BlockFiles.{front_seen, seen_file_in, seen_file_of_plain};
ghost use Rattle.sealed_store.specs.Stores.{IsIntact, seen_file_of};

use crate::Seen;
use crate::drafts::FRONT_LEN;
use crate::sealed_store::SEAL_LEN;
use block_id::{BlockId, Format};
use seal_api::Sealer;

/// What a file of each format begins with.
pub(crate) const PREFIX_ALONE: [u8; 16] = *b"cryfs;block;0\0\x01\0";

pub(crate) const PREFIX_WITH_ID: [u8; 16] = *b"cryfs;block;0\0\x02\0";

/// The format that a file begins with.
fn format_in(bytes: &[u8]) -> Option<Format>
    ensures { result ≡ format_in bytes.now }
{
    if bytes.starts_with(&PREFIX_ALONE) {
        return Some(Format::Alone);
    }
    if bytes.starts_with(&PREFIX_WITH_ID) {
        return Some(Format::WithId);
    }
    None
}

/// Whether files of this format aren't taken any more.
pub(crate) fn is_old(format: Format, least: u8) -> bool
    ensures { result ≡ nat_lt (number_of format) least }
{
    match format {
        Format::Alone => least > 1,
        Format::WithId => least > 2,
    }
}

/// What is asked of a block's file: which block's it is, the least format that is taken, and how many first bytes of the
/// plaintext at most.
#[derive(Clone, Copy)]
pub(crate) struct Asked {
    pub id: BlockId,
    pub least: u8,
    pub most: usize,
}

/// Opens the file of a block of this format behind its prefix, where it stands, as far as the plaintext's first bytes, at most so
/// many, and says whether it opens.
fn open_rest<C: Sealer>(
    cipher: &C,
    key: &[u8; 32],
    id: &BlockId,
    format: Format,
    most: usize,
    file: &mut [u8],
) -> bool
    requires { 16 ≤ length file.old }
    ensures { shown most result (middle (C.iv_size cipher.now) 16 (drop 16 file.new))
        ≡ option_map (take most) (C.opens cipher.now key.now (extra_of format id.now.0) (drop 16 file.old)) }
{
    match format {
        Format::Alone => cipher.unseal_in_place(key, &[], &mut file[16..], most),
        Format::WithId => cipher.unseal_in_place(key, &id.0, &mut file[16..], most),
    }
}

/// The first bytes, at most so many, of the plaintext that stands in an opened file, in the file's own memory.
fn front_of_opened(most: usize, file: Vec<u8>) -> Vec<u8>
    requires { SEAL_LEN ≤ length file.items }
    ensures { result.items ≡ take most (middle 16 16 (drop 16 file.items)) }
{
    let mut plain = file;
    let len = most.min(plain.len() - SEAL_LEN);
    plain.copy_within(FRONT_LEN..FRONT_LEN + len, 0);
    plain.truncate(len);
    plain
}

/// What a block's file of this format shows, of its plaintext no more than so many first bytes.
fn see_rest<C: Sealer>(
    cipher: &C,
    key: &[u8; 32],
    id: &BlockId,
    format: Format,
    most: usize,
    file: Vec<u8>,
) -> Seen
    requires iv { C.iv_size cipher.now ≡ 16 }
    requires long { SEAL_LEN ≤ length file.items }
    ensures { seen_file_of result ≡ front_seen most (seen_file_of_plain (C.opens cipher.now key.now (extra_of format id.now.0) (drop 16 file.items))) }
{
    let mut bytes = file;
    if open_rest(cipher, key, id, format, most, &mut bytes) {
        Seen::Plain(front_of_opened(most, bytes))
    } else {
        Seen::NotOpened
    }
}

/// What an answer shows. It takes no memory: a file is opened where it stands.
pub(crate) fn see<C: Sealer>(
    cipher: &C,
    key: &[u8; 32],
    block_size: usize,
    asked: &Asked,
    answer: Option<Vec<u8>>,
) -> Seen
    requires { IsIntact block_size (C.iv_size cipher.now) }
    ensures { seen_file_of result
        ≡ front_seen asked.now.most (seen_file_in (C.opens cipher.now key.now) block_size asked.now.least asked.now.id.0 (bytes_of answer)) }
{
    let Some(bytes) = answer else {
        return Seen::Absent;
    };
    if bytes.len() != block_size {
        return Seen::BadLength;
    }
    let Some(format) = format_in(&bytes) else {
        return Seen::BadPrefix;
    };
    if is_old(format, asked.least) {
        return Seen::OldFormat;
    }
    see_rest(cipher, key, &asked.id, format, asked.most, bytes)
}
