// The header of a blob: what it is, and the directory that holds it.
ghost use Rattle.std.specs.Prelude.{◌≡◌, List, ℕ, IfSome, IsSomeAnd};
ghost use Rattle.std.specs.Option.{option_map};
ghost use Rattle.fs_blobs.specs.Headers.{BeginsWith, header_text};
ghost use Rattle.fs_blobs.specs.Reading.{header_at, parts_at, parts_of};
ghost use Rattle.fs_model.specs.declared.attr.Kind.{Kind as KindText};

use block_id::BlockId;
use byte_fields::{take_id, take_u16};
use fs_model::{Kind, kind_byte, kind_from};

/// The format's number, with which each blob begins.
pub const BLOB_FORMAT: u16 = 1;

/// The bytes before a blob's body: format, kind and parent.
pub const HEADER_LEN: usize = 19;

/// What a blob is, and the id of the directory that holds it. The root's parent is sixteen zero bytes.
#[derive(Clone, Copy)]
pub struct Header {
    pub kind: Kind,
    pub parent: BlockId,
}

/// The header with which the bytes begin, or None where they begin with none.
pub fn read_header(bytes: &[u8]) -> Option<Header>
    // What is read stands in front.
    ensures found { IfSome result (λ h. BeginsWith bytes.now h.kind h.parent.0) }
    // What stands in front is read. So None comes only where no header does.
    ensures only { (kind : KindText) (parent : List ℕ) → BeginsWith bytes.now kind parent
        → IsSomeAnd result (λ h. (h.kind ≡ kind) × (h.parent.0 ≡ parent)) }
{
    header_from(bytes)
}

#[tactic(auto, unfolding(crate::specs::Reading::header_at))]
fn header_from(bytes: &[u8]) -> Option<Header>
    ensures { option_map parts_of result ≡ header_at bytes.now }
{
    let (format, rest) = take_u16(bytes)?;
    if format != BLOB_FORMAT {
        return None;
    }
    kind_and_parent(rest)
}

fn kind_and_parent(bytes: &[u8]) -> Option<Header>
    ensures { option_map parts_of result ≡ parts_at bytes.now }
{
    let (kind, rest) = bytes.split_first()?;
    let kind = kind_from(*kind)?;
    let (parent, _) = take_id(rest)?;
    Some(Header { kind, parent })
}

/// The bytes of a header.
pub fn header_bytes(header: &Header) -> [u8; HEADER_LEN]
    ensures { result ≡ header_text header.now.kind header.now.parent.0 }
{
    let mut bytes = [0; HEADER_LEN];
    bytes[..2].copy_from_slice(&BLOB_FORMAT.to_le_bytes());
    bytes[2] = kind_byte(header.kind);
    bytes[3..].copy_from_slice(&header.parent.0);
    bytes
}

/// Bytes begin with one header at most.
pub fn one_header()
    ensures { (bytes : List ℕ) (kind other : KindText) (parent another : List ℕ) → BeginsWith bytes kind parent → BeginsWith bytes other another
        → (kind ≡ other) × (parent ≡ another) }
{}
