// Along the names of a path.
ghost use Rattle.std.specs.Prelude.{◌≡◌, ◌∷◌, IfOk};
ghost use Rattle.dir_blob.specs.store_outcome.Outcome.{Outcome};
ghost use Rattle.fs_model.specs.Tree.{upward};
ghost use Rattle.path_walks.specs.Showing.{BlobsShow};
ghost use Rattle.path_walks.specs.Sights.{SpotIs, SightIs, HasMode, HaveModes, Walking};

use crate::{Place, Sight, Spot};
use block_id::{BlockId, Fail};
use dir_blob::blob_api::Blobs;
use dir_blob::{find_in, find_target};
use fs_model::{FsError, Kind, Name, root_attr};
use std::alloc::Global;

/// One name further.
pub fn advance<B: Blobs>(alloc: Global, b: &mut B, spot: Spot, name: &Name) -> Result<Spot, Fail>
    requires { B.meanings.intact b.old }
    ensures outcome { Outcome B.meanings (Walking B.holdings b.old spot) b.old b.new result
        (λ n s. B.holdings.stands_for b.new n.map × SpotIs n.tree n.ids (name.now ∷ n.path) s) }
    ensures mode { HasMode spot → IfOk result HasMode }
    ensures unchanged { B.holdings.changed b.new ≡ B.holdings.changed b.old }
{
    match spot {
        Spot::Here(dir) => match dir.attr.kind {
            Kind::Directory => match find_target(alloc, b, &dir.blob, name)? {
                Some((attr, blob)) => Ok(Spot::Here(Place {
                    attr,
                    blob,
                    holder: dir.blob,
                })),
                None => Ok(Spot::Wrong(FsError::NoEntry)),
            },
            Kind::File => Ok(Spot::Wrong(FsError::NotDirectory)),
            Kind::Link => Ok(Spot::Wrong(FsError::NotDirectory)),
        },
        Spot::Wrong(e) => Ok(Spot::Wrong(e)),
    }
}

/// Along the names from the root.
pub fn walk<B: Blobs>(
    alloc: Global,
    b: &mut B,
    root: &BlockId,
    names: &[Name],
) -> Result<Spot, Fail>
    requires { B.meanings.intact b.old }
    ensures outcome { Outcome B.meanings (BlobsShow B.holdings b.old root.now.0) b.old b.new result
        (λ n s. B.holdings.stands_for b.new n.map × SpotIs n.tree n.ids (upward names.now) s) }
    ensures mode { IfOk result HasMode }
    ensures unchanged { B.holdings.changed b.new ≡ B.holdings.changed b.old }
{
    let mut spot = Spot::Here(Place {
        attr: root_attr(),
        blob: *root,
        holder: *root,
    });
    for name in names {
        spot = advance(alloc, b, spot, name)?;
    }
    Ok(spot)
}

/// What stands under a name below a path.
pub fn look_at<B: Blobs>(
    alloc: Global,
    b: &mut B,
    root: &BlockId,
    names: &[Name],
    name: &Name,
) -> Result<Sight, Fail>
    requires { B.meanings.intact b.old }
    ensures outcome { Outcome B.meanings (BlobsShow B.holdings b.old root.now.0) b.old b.new result
        (λ n s. B.holdings.stands_for b.new n.map × SightIs n.tree n.ids (upward names.now) name.now s) }
    ensures modes { IfOk result HaveModes }
    ensures unchanged { B.holdings.changed b.new ≡ B.holdings.changed b.old }
{
    match walk(alloc, b, root, names)? {
        Spot::Here(dir) => match dir.attr.kind {
            Kind::Directory => {
                let (found, body) = find_in(alloc, b, &dir.blob, name)?;
                match found {
                    Some((attr, blob)) => Ok(Sight::Found(
                        dir,
                        Place {
                            attr,
                            blob,
                            holder: dir.blob,
                        },
                        body,
                    )),
                    None => Ok(Sight::Vacant(dir, body)),
                }
            }
            Kind::File => Ok(Sight::Lost(FsError::NotDirectory)),
            Kind::Link => Ok(Sight::Lost(FsError::NotDirectory)),
        },
        Spot::Wrong(e) => Ok(Sight::Lost(e)),
    }
}
