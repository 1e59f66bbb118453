// Loads and a change of one command over any store.
ghost use Rattle.std.specs.Prelude.{◌≡◌, ◌≤◌, true, length, take};
ghost use Rattle.store_api.specs.store_outcome.Outcome.{Outcome};
ghost use Rattle.memory_stores.specs.Followed.{ContentFollows};
ghost use Rattle.store_api.specs.Txs.{content_of, intact_in, tx_meanings};

use block_id::{BlockId, Fail};
use std::alloc::Global;
use store_api::{Blocks, Tx};

fn first_id(bytes: &[u8]) -> BlockId
    requires { 16 ≤ length bytes.now }
    ensures { result.0 ≡ take 16 bytes.now }
{
    let mut id = [0; 16];
    id.copy_from_slice(&bytes[..16]);
    BlockId(id)
}

/// Gives a block the payload of the one that it names by its first 16 bytes. Says whether both are there.
pub fn follow<S: Blocks>(alloc: Global, tx: &mut Tx<S>, id: &BlockId) -> Result<bool, Fail>
    requires { intact_in S.meanings S.holdings tx.old }
    ensures { Outcome (tx_meanings S.meanings S.holdings) (S.holdings.told tx.old.store ≡ true) tx.old tx.new result
        (λ _ found. ContentFollows (content_of S.holdings tx.old) (content_of S.holdings tx.new) id.now.0 found) }
{
    let first = match tx.load(alloc, id)? {
        Some(bytes) => bytes,
        None => return Ok(false),
    };
    let next = first_id(&first);
    let second = match tx.load(alloc, &next)? {
        Some(bytes) => bytes,
        None => return Ok(false),
    };
    match tx.put(id, second) {
        Ok(()) => Ok(true),
        Err(_) => Err(Fail::Memory),
    }
}
