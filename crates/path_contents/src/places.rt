// What the blob of a place has.
ghost use Rattle.std.specs.Prelude.{◌≡◌, length, take, drop, MatchOption};
ghost use Rattle.path_walks.specs.store_outcome.Outcome.{Outcome};
ghost use Rattle.fs_model.specs.declared.attr.Kind.TheVariants.{File};
ghost use Rattle.fs_model.specs.Step.{Stepped, refused, on_file};
ghost use Rattle.fs_model.specs.Tree.{Tree};
ghost use Rattle.path_walks.specs.Sights.{Standing};
ghost use Rattle.path_contents.specs.Places.{Holding};

use block_id::Fail;
use fs_model::{FsError, Kind};
use path_walks::Place;
use path_walks::blob_api::Blobs;
use path_walks::fs_blobs::{body_len, read_body};
use std::alloc::Global;

/// The bytes of a row: a directory has none.
pub fn size_at<B: Blobs>(alloc: Global, b: &mut B, place: &Place) -> Result<u64, Fail>
    requires { B.meanings.intact b.old }
    ensures outcome { Outcome B.meanings (Standing B.holdings b.old place.now) b.old b.new result
        (λ n size. B.holdings.stands_for b.new n.map × (size ≡ length n.at.row.bytes)) }
    ensures unchanged { B.holdings.changed b.new ≡ B.holdings.changed b.old }
{
    match place.attr.kind {
        Kind::Directory => Ok(0),
        Kind::File => body_len(alloc, b, &place.blob),
        Kind::Link => body_len(alloc, b, &place.blob),
    }
}

/// At most `count` bytes of a file or of a link's target, from `from` on, cut at the end.
pub fn bytes_at<B: Blobs>(
    alloc: Global,
    b: &mut B,
    place: &Place,
    from: u64,
    count: u64,
) -> Result<Vec<u8>, Fail>
    requires { B.meanings.intact b.old }
    ensures outcome { Outcome B.meanings (Holding B.holdings b.old place.now) b.old b.new result
        (λ n bytes. B.holdings.stands_for b.new n.standing.map × (bytes.items ≡ take count (drop from n.standing.at.row.bytes))) }
    ensures unchanged { B.holdings.changed b.new ≡ B.holdings.changed b.old }
{
    read_body(alloc, b, &place.blob, from, count)
}

/// Why the content of a row isn't touched: a file's is.
pub fn content_refusal(kind: Kind) -> Option<FsError>
    ensures { MatchOption result (kind ≡ File) (λ e. (t : Tree) (s : Stepped) → on_file t kind s ≡ refused t e) }
{
    match kind {
        Kind::Directory => Some(FsError::IsDirectory),
        Kind::Link => Some(FsError::Invalid),
        Kind::File => None,
    }
}
