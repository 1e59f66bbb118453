// Rows of a store: an id with its bytes.
ghost use Rattle.std.specs.Prelude.{◌≡◌, IfSome, None};
ghost use Rattle.std.specs.Option.{option_map};
ghost use Rattle.std.specs.FinMap as fin;
ghost use Rattle.memory_stores.specs.BlobsRows.{row_of};

use block_id::BlockId;
use store_api::{Batch, BatchChange};

/// The bytes of a row.
pub fn row<'a>(rows: &'a Batch, id: &BlockId) -> Option<&'a [u8]>
    ensures { option_map (λ bytes. bytes.now) result ≡ row_of (fin.get rows.now id.now.0) }
{
    match rows.get(id) {
        Some(BatchChange::Payload(bytes)) => Some(bytes.as_slice()),
        Some(BatchChange::Removal) => None,
        None => None,
    }
}

/// An id from the drawn one on that has no row; None where many have.
pub fn free_id(rows: &Batch, drawn: BlockId) -> Option<BlockId>
    ensures { IfSome result (λ id. fin.get rows.now id.0 ≡ None) }
{
    let mut id = drawn;
    for _ in 0..u64::MAX {
        match rows.get(&id) {
            Some(_) => {}
            None => return Some(id),
        }
        id = id.next();
    }
    None
}
