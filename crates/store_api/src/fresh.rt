// New ids for the blocks of a command.
ghost use Rattle.std.specs.Prelude.{◌++◌, ◌<◌, ◌^◌, length};
ghost use Rattle.std.specs.FinMap as fin;
ghost use Rattle.block_id.specs.Fresh.{IsFirstFree};
ghost use Rattle.store_api.specs.Holdings.{IsFew, is_free};

use crate::{Blocks, Draft};
use block_id::BlockId;

/// The first id from the drawn one on that is neither zero nor used, in the changes or in the store.
pub(crate) fn first_free<S: Blocks>(store: &S, overlay: &Draft, drawn: BlockId) -> BlockId
    requires few { IsFew (S.holdings.used store.now) }
    requires small { length (fin.keys overlay.now ++ S.holdings.used store.now) < 2 ^ 65 }
    ensures { IsFirstFree (is_free (fin.keys overlay.now ++ S.holdings.used store.now)) drawn.0 result.0 }
{
    let mut id = drawn;
    loop {
        id = store.fresh(id);
        if !overlay.has(&id) {
            return id;
        }
        id = id.next();
    }
}
