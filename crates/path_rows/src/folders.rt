// Directories, and whether anything stands below one.
ghost use Rattle.std.specs.Prelude.{◌≡◌};
ghost use Rattle.path_walks.specs.store_outcome.Outcome.{Outcome};
ghost use Rattle.fs_model.specs.Step.{has_child as model_has_child};
ghost use Rattle.fs_model.specs.Tree.{is_directory as model_is_directory};
ghost use Rattle.path_rows.specs.Changes.{DirectoryAt};

use block_id::Fail;
use fs_model::Kind;
use path_walks::Place;
use path_walks::blob_api::Blobs;
use path_walks::fs_blobs::body_len;
use std::alloc::Global;

/// Whether something stands below a directory.
pub fn has_child<B: Blobs>(alloc: Global, b: &mut B, place: &Place) -> Result<bool, Fail>
    requires { B.meanings.intact b.old }
    ensures outcome { Outcome B.meanings (DirectoryAt B.holdings b.old place.now) b.old b.new result
        (λ n answer. B.holdings.stands_for b.new n.standing.map × (answer ≡ model_has_child n.standing.tree n.standing.path)) }
    ensures unchanged { B.holdings.changed b.new ≡ B.holdings.changed b.old }
{
    Ok(body_len(alloc, b, &place.blob)? > 0)
}

/// A directory, and not a file or a link.
pub fn is_directory(kind: Kind) -> bool
    ensures { result ≡ model_is_directory kind }
{
    match kind {
        Kind::Directory => true,
        Kind::File => false,
        Kind::Link => false,
    }
}
