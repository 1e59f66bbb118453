// The rows of a directory.
ghost use Rattle.std.specs.Prelude.{◌≡◌, IfOk, map};
ghost use Rattle.path_walks.specs.store_outcome.Outcome.{Outcome};
ghost use Rattle.fs_model.specs.LookUp.{Found};
ghost use Rattle.fs_model.specs.Step.{listed};
ghost use Rattle.path_walks.specs.dir_entries.Layout.{listing_of};
ghost use Rattle.path_contents.specs.Listed.{InFolder, IsListReply, shown_row};

use block_id::{BlockId, Fail, Memory};
use fs_model::{ListRow, Reply, RowList};
use path_walks::blob_api::Blobs;
use path_walks::dir_blob::entries;
use path_walks::dir_entries::Entry;
use std::alloc::Global;

/// Kind and name of each entry.
fn rows_of(alloc: Global, entries: &[Entry]) -> Result<Vec<ListRow>, Memory>
    ensures { IfOk result (λ rows. rows.items ≡ map shown_row (listing_of entries.now)) }
{
    let mut rows = Vec::new(alloc);
    for entry in entries {
        rows.push(ListRow {
            kind: entry.attr.kind,
            name: entry.name.try_clone()?,
        })?;
    }
    Ok(rows)
}

/// The rows of a directory.
pub fn list_in<B: Blobs>(alloc: Global, b: &mut B, dir: &BlockId) -> Result<Reply, Fail>
    requires { B.meanings.intact b.old }
    ensures outcome { Outcome B.meanings (InFolder B.holdings b.old dir.now.0) b.old b.new result
        (λ n r. B.holdings.stands_for b.new n.standing.map × (r ≡ (listed n.standing.tree n.standing.path (Found n.standing.at.row)).reply)) }
    ensures variant { IfOk result IsListReply }
    ensures unchanged { B.holdings.changed b.new ≡ B.holdings.changed b.old }
{
    let found = entries(alloc, b, dir)?;
    let rows = rows_of(alloc, &found)?;
    Ok(Reply::Rows(RowList::new(rows)))
}
