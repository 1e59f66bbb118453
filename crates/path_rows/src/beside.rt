// A look from a row to another path.
ghost use Rattle.std.specs.Prelude.{◌≡◌, ◌≤◌, IfOk};
ghost use Rattle.path_walks.specs.store_outcome.Outcome.{Outcome};
ghost use Rattle.fs_model.specs.Tree.{upward};
ghost use Rattle.path_walks.specs.Sights.{SightIs, HaveModes, sight_of};
ghost use Rattle.path_rows.specs.Onward.{Leaving};

use block_id::{BlockId, Fail, Why};
use fs_model::{Attr, MAX_MODE, Name, same_names};
use path_walks::blob_api::Blobs;
use path_walks::dir_entries::locate;
use path_walks::{Occupancy, Place, Sight, look_at};
use std::alloc::Global;

/// What stands under a name below a path. Where that is the row's own directory its body isn't read again.
pub fn look_beside<B: Blobs>(
    alloc: Global,
    b: &mut B,
    root: &BlockId,
    from: &Occupancy,
    names: &[Name],
    name: &Name,
) -> Result<Sight, Fail>
    requires intact { B.meanings.intact b.old }
    requires mode { from.now.dir.place.attr.mode ≤ MAX_MODE }
    ensures outcome { Outcome B.meanings (Leaving B.holdings b.old root.now.0 from.now) b.old b.new result
        (λ n s. B.holdings.stands_for b.new n.finding.map × SightIs n.finding.tree n.finding.ids (upward names.now) name.now s) }
    ensures modes { IfOk result HaveModes }
    ensures unchanged { B.holdings.changed b.new ≡ B.holdings.changed b.old }
{
    if !same_names(names, from.dir.names) {
        return look_at(alloc, b, root, names, name);
    }
    let Some(seen) = locate(&from.body, name) else {
        return Err(Fail::Violation(Why::Structure));
    };
    let mut body = Vec::new(alloc);
    body.extend_from_slice(&from.body)?;
    Ok(seen_in(from.dir.place, seen.found, body))
}

/// What a look in a directory of this body comes to.
fn seen_in(dir: Place, found: Option<(Attr, BlockId)>, body: Vec<u8>) -> Sight
    ensures { result ≡ sight_of dir body found }
{
    match found {
        Some((attr, blob)) => Sight::Found(
            dir,
            Place {
                attr,
                blob,
                holder: dir.blob,
            },
            body,
        ),
        None => Sight::Vacant(dir, body),
    }
}
