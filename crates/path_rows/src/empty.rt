// The root of a new file system.
ghost use Rattle.std.specs.Prelude.{◌≡◌, [], ℕ, List, IfOk, length};
ghost use Rattle.std.specs.FinMap.{insert, empty};
ghost use Rattle.block_id.specs.Fresh.{zero_id};
ghost use Rattle.fs_model.specs.declared.attr.Kind.TheVariants.{Directory};
ghost use Rattle.fs_model.specs.Tree.{empty_tree};
ghost use Rattle.path_walks.specs.fs_blobs.Headers.{blob};
ghost use Rattle.path_walks.specs.Shows.{ShowsBy};

use block_id::{BlockId, Memory};
use fs_model::Kind;
use path_walks::fs_blobs::{Header, header_bytes};
use std::alloc::Global;

/// The bytes of a root's blob that shows the empty tree, where it is the only blob.
pub fn empty_root(alloc: Global) -> Result<Vec<u8>, Memory>
    ensures bytes { IfOk result (λ bytes. bytes.items ≡ blob Directory zero_id []) }
    ensures shows { IfOk result (λ bytes. (root : List ℕ) → length root ≡ 16 → ShowsBy (insert empty root bytes.items) root empty_tree (λ p. root)) }
{
    let bytes = directory_bytes(alloc)?;
    Ok(bytes)
}

/// The header of a directory that no other one holds.
fn directory_bytes(alloc: Global) -> Result<Vec<u8>, Memory>
    ensures { IfOk result (λ bytes. bytes.items ≡ blob Directory zero_id []) }
{
    let header = Header {
        kind: Kind::Directory,
        parent: BlockId([0; 16]),
    };
    Ok(header_bytes(&header).to_vec(alloc)?)
}
