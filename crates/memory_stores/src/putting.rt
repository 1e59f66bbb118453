// A payload under an id of the caller's choice.
ghost use Rattle.std.specs.Prelude.{◌≡◌, true, length, OnOk, Some};
ghost use Rattle.std.specs.FinMap as fin;
ghost use Rattle.store_api.specs.Holdings.{Changed, IsFew, MayGet};

use block_id::BlockId;
use rand_core::Rng;
use std::alloc::Global;
use std::test::Fail;
use store_api::{Batch, Blocks, BlocksMut};

/// Whether the id may get this payload.
fn may_take<S: Blocks>(store: &S, id: &BlockId, payload: &[u8]) -> bool
    ensures id { result ≡ true → MayGet S.holdings store.now id.now.0 }
    ensures sized { result ≡ true → length payload.now ≡ S.holdings.payload store.now }
{
    if payload.len() != store.payload() {
        return false;
    }
    store.contains(id) || (!store.is_used(id) && !id.cmp(&BlockId([0; 16])).is_eq())
}

/// Has an id get a payload, in a batch of its own. Changes over a store give new blocks ids that they draw; a test
/// that wants a block under an id that it knows puts it so.
pub fn put_one<S: BlocksMut, R: Rng>(
    alloc: Global,
    store: &mut S,
    id: &BlockId,
    payload: Vec<u8>,
    chance: &mut R,
) -> Result<(), Fail>
    requires { S.Blocks.meanings.intact store.old }
    ensures intact { S.Blocks.meanings.intact store.new }
    ensures few { IsFew (S.Blocks.holdings.used store.old) → IsFew (S.Blocks.holdings.used store.new) }
    ensures changed { OnOk result (Changed S.Blocks.meanings S.Blocks.holdings store.old store.new (fin.insert fin.empty id.now.0 (Some payload.items))) }
    ensures applied { OnOk result (S.applied store.old store.new (fin.insert fin.empty id.now.0 (Some payload.items))) }
    ensures forgeries { S.Blocks.meanings.forgeries store.new ≡ S.Blocks.meanings.forgeries store.old }
{
    if !may_take(store, id, &payload) {
        return Err("no such payload for this id".into());
    }
    let mut batch = Batch::new(alloc);
    match batch.put(id, payload) {
        Ok(()) => {}
        Err(_) => return Err("out of memory".into()),
    }
    match store.apply(alloc, &batch, chance) {
        Ok(()) => Ok(()),
        Err(_) => Err("not applied".into()),
    }
}
