// Changes over a store in memory, and what is loaded of them.
ghost use Rattle.block_cache.specs.store_api.Txs.{intact_in};

use crate::steps::is_answered;
use block_cache::store_api::{Blocks, BlocksMut, Tx};
use block_id::BlockId;
use memory_stores::{MapStore, follow};
use rand_pcg::Pcg32;
use std::alloc::Global;
use std::test::Fail;

/// Each line is a step with what it answers. New blocks are a, b and so on in the order in which they were made.
///
///     new 7        makes a block with a payload of 50 sevens
///     new d        makes one whose payload begins with the id of block d
///     begin        forgets the changes, and begins the new ids anew
///     follow e     gives block e the payload of the block that it names
///     first e      the first byte of a payload
///
/// The id that is drawn first is the front of ChaCha20's stream for a key and a nonce of zeros.
const STEPS: &str = "\
new 1
id a = 76B8E0ADA0F13D90405D6AE55386BD28
begin
new 1
id b = 76B8E0ADA0F13D90405D6AE55386BD28
new 1
new 7
new d
commit
follow e = true
commit
first e = Some(7)
remove c
new 4
remove f
changes = 1
abandon
first c = Some(1)
remove c
commit
first c = None
used c = true
";

/// The block of this letter.
fn named(ids: &[BlockId], letter: &str) -> Result<BlockId, Fail> {
    let place = "abcdef".find(letter).ok_or("no letter")?;
    Ok(*ids.get(place).ok_or("no such block")?)
}

/// 50 times this byte, or the id of the block of this letter before zeros.
fn payload_of(ids: &[BlockId], word: &str) -> Result<[u8; 50], Fail> {
    if let Ok(byte) = word.parse() {
        return Ok([byte; 50]);
    }
    let mut payload = [0; 50];
    payload[..16].copy_from_slice(&named(ids, word)?.0);
    Ok(payload)
}

/// A new block with this payload.
fn give<S: Blocks>(alloc: Global, tx: &mut Tx<S>, payload: &[u8; 50]) -> Result<BlockId, Fail>
    requires { intact_in S.meanings S.holdings tx.old }
    ensures { intact_in S.meanings S.holdings tx.new }
{
    let payload = payload.to_vec(alloc)?;
    if payload.len() != tx.payload() {
        return Err(Fail::from("another length"));
    }
    Ok(tx.add(payload)?)
}

/// Removes the payload of an id.
fn take<S: Blocks>(tx: &mut Tx<S>, id: &BlockId) -> Result<(), Fail>
    requires { intact_in S.meanings S.holdings tx.old }
    ensures { intact_in S.meanings S.holdings tx.new }
{
    if !tx.contains(id) {
        return Err(Fail::from("no payload"));
    }
    Ok(tx.remove(id)?)
}

/// The first byte of a payload.
fn first_byte<S: Blocks>(alloc: Global, tx: &mut Tx<S>, id: &BlockId) -> Result<Option<u8>, Fail>
    requires { intact_in S.meanings S.holdings tx.old }
    ensures { intact_in S.meanings S.holdings tx.new }
{
    match tx.load(alloc, id)? {
        Some(bytes) => Ok(bytes.first().copied()),
        None => Ok(None),
    }
}

/// What a step on one block answers.
fn asked<S: Blocks>(alloc: Global, tx: &mut Tx<S>, verb: &str, id: &BlockId) -> Result<String, Fail>
    requires { intact_in S.meanings S.holdings tx.old }
    ensures { intact_in S.meanings S.holdings tx.new }
{
    match verb {
        "remove" => {
            take(tx, id)?;
            Ok(String::new(alloc))
        }
        "follow" => Ok(format!(in alloc; "{:?}", follow(alloc, tx, id)?)?),
        "first" => Ok(format!(in alloc; "{:?}", first_byte(alloc, tx, id)?)?),
        "used" => Ok(format!(in alloc; "{:?}", tx.is_used(id))?),
        _ => Ok(String::from_str(alloc, str::from_utf8(&id.to_name()).unwrap_or("bytes"))?),
    }
}

/// What a step answers.
fn answer<S: BlocksMut>(
    alloc: Global,
    tx: &mut Tx<S>,
    ids: &mut Vec<BlockId>,
    step: &str,
) -> Result<String, Fail>
    requires { intact_in S.Blocks.meanings S.Blocks.holdings tx.old }
    ensures { intact_in S.Blocks.meanings S.Blocks.holdings tx.new }
{
    let (verb, word) = step.split_once(' ').unwrap_or((step, ""));
    match verb {
        "new" => {
            ids.push(give(alloc, tx, &payload_of(ids, word)?)?)?;
            Ok(String::new(alloc))
        }
        "begin" => {
            tx.begin([0; 32]);
            Ok(String::new(alloc))
        }
        "commit" => {
            tx.commit(alloc, &mut Pcg32::new(1, 2))?;
            Ok(String::new(alloc))
        }
        "abandon" => {
            tx.abandon();
            Ok(String::new(alloc))
        }
        "changes" => Ok(format!(in alloc; "{}", tx.batch().len())?),
        _ => asked(alloc, tx, verb, &named(ids, word)?),
    }
}

/// Each step is answered so, one after another.
fn play<S: BlocksMut>(alloc: Global, tx: &mut Tx<S>, steps: &str) -> Result<(), Fail>
    requires { intact_in S.Blocks.meanings S.Blocks.holdings tx.old }
{
    let mut ids = Vec::new(alloc);
    for line in steps.lines() {
        let (step, wanted) = line.split_once(" = ").unwrap_or((line, ""));
        let told = answer(alloc, tx, &mut ids, step)?;
        is_answered(step, &told, wanted)?;
    }
    Ok(())
}

#[test]
fn changes_are_told_and_made(rt: HostRuntime) -> Result<(), Fail> {
    let mut tx = Tx::new(rt.alloc(), MapStore::new(rt.alloc(), 50), [0; 32]);
    let played = play(rt.alloc(), &mut tx, STEPS);
    drop(tx.into_store());
    played
}
