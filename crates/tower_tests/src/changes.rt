// Changes of one store in a session: payloads, removals, and what one block has given to another.
ghost use Rattle.block_cache.specs.store_api.Txs.{intact_in};

use crate::words::pair;
use block_cache::store_api::{Blocks, BlocksMut, Tx};
use block_id::BlockId;
use memory_stores::{self, put_one};
use rand_pcg::Pcg32;
use std::alloc::Global;
use std::test::Fail;

/// Has a new id get a payload, in a batch of its own. Changes that wait are forgotten.
fn give<S: BlocksMut>(
    alloc: Global,
    tx: &mut Tx<S>,
    id: &BlockId,
    payload: Vec<u8>,
    chance: &mut Pcg32,
) -> Result<(), Fail>
    requires { intact_in S.Blocks.meanings S.Blocks.holdings tx.old }
    ensures { intact_in S.Blocks.meanings S.Blocks.holdings tx.new }
{
    let given = put_one(alloc, &mut tx.store, id, payload, chance);
    tx.begin([0; 32]);
    given
}

/// Has an id that was loaded get another payload.
fn put<S: Blocks>(alloc: Global, tx: &mut Tx<S>, id: &BlockId, payload: Vec<u8>) -> Result<(), Fail>
    requires { intact_in S.meanings S.holdings tx.old }
    ensures { intact_in S.meanings S.holdings tx.new }
{
    match tx.load(alloc, id)? {
        Some(_) => {}
        None => return Err(Fail::from("no block")),
    }
    if payload.len() != tx.payload() {
        return Err(Fail::from("another length"));
    }
    tx.put(id, payload)?;
    Ok(())
}

fn remove<S: Blocks>(tx: &mut Tx<S>, id: &BlockId) -> Result<(), Fail>
    requires { intact_in S.meanings S.holdings tx.old }
    ensures { intact_in S.meanings S.holdings tx.new }
{
    if !tx.contains(id) {
        return Err(Fail::from("no block"));
    }
    tx.remove(id)?;
    Ok(())
}

/// One change, as in `a=5`, a payload of 50 such bytes, or `a=gone`.
fn change<S: BlocksMut>(
    alloc: Global,
    tx: &mut Tx<S>,
    word: &str,
    chance: &mut Pcg32,
) -> Result<(), Fail>
    requires { intact_in S.Blocks.meanings S.Blocks.holdings tx.old }
    ensures { intact_in S.Blocks.meanings S.Blocks.holdings tx.new }
{
    let (id, what) = pair(word)?;
    if what == "gone" {
        return remove(tx, &id);
    }
    let byte: u8 = what.parse().ok().ok_or("this is no byte")?;
    let payload = [byte; 50].to_vec(alloc)?;
    if tx.is_used(&id) {
        put(alloc, tx, &id, payload)
    } else {
        give(alloc, tx, &id, payload, chance)
    }
}

/// Makes these changes, as in `a=5 b=gone`. Those of new ids, which stand first, are made one by one; the rest is one batch.
pub(crate) fn commit<S: BlocksMut>(alloc: Global, tx: &mut Tx<S>, words: &str) -> Result<(), Fail>
    requires { intact_in S.Blocks.meanings S.Blocks.holdings tx.old }
    ensures { intact_in S.Blocks.meanings S.Blocks.holdings tx.new }
{
    let mut chance = Pcg32::new(1, 2);
    for word in words.split(' ') {
        if !word.is_empty() {
            change(alloc, tx, word, &mut chance)?;
        }
    }
    tx.commit(alloc, &mut chance)?;
    Ok(())
}

/// Gives a block the payload of the one that it names, where both are there, as `a=found` says, or isn't as `a=nothing`.
pub(crate) fn follow<S: BlocksMut>(alloc: Global, tx: &mut Tx<S>, word: &str) -> Result<(), Fail>
    requires { intact_in S.Blocks.meanings S.Blocks.holdings tx.old }
    ensures { intact_in S.Blocks.meanings S.Blocks.holdings tx.new }
{
    let (id, what) = pair(word)?;
    let found = memory_stores::follow(alloc, tx, &id)?;
    tx.commit(alloc, &mut Pcg32::new(1, 2))?;
    if found == (what == "found") {
        Ok(())
    } else {
        Err(Fail::new(format_args!("{found}")))
    }
}
