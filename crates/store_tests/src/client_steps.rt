// What a client does over the changes of any store, step after step, and what it is answered.
ghost use Rattle.block_cache.specs.store_api.Txs.{intact_in};

use block_cache::store_api::{ApplyError, Blocks, BlocksMut, Tx};
use block_id::{BlockId, Why};
use rand_pcg::Pcg32;
use std::alloc::Global;
use std::test::Fail;

/// The seed of the new ids.
pub(crate) const SEED: [u8; 32] = [0; 32];

/// The block that steps call `it`, which was added last, and the source that batches draw from.
#[derive(Drop)]
pub(crate) struct Client {
    pub(crate) it: BlockId,
    pub(crate) chance: Pcg32,
}

/// A client to whom `it` is the first block.
pub(crate) fn new_client() -> Client {
    Client {
        it: BlockId([1; 16]),
        chance: Pcg32::new(1, 2),
    }
}

/// The block of this name: `it`, or a number, of which its id has 16 bytes.
pub(crate) fn block(client: &Client, name: &str) -> Result<BlockId, Fail> {
    if name == "it" {
        return Ok(client.it);
    }
    let byte: u8 = name.parse().ok().ok_or("a block is a number, or it")?;
    Ok(BlockId([byte; 16]))
}

/// A payload: `50 of 8` are 50 bytes of 8, and another text is its own bytes.
fn payload(alloc: Global, text: &str) -> Result<Vec<u8>, Fail> {
    let Some((count, byte)) = text.split_once(" of ") else {
        return Ok(text.as_bytes().to_vec(alloc)?);
    };
    let mut bytes = Vec::new(alloc);
    bytes.resize(
        count.parse().ok().ok_or("so many bytes")?,
        byte.parse().ok().ok_or("of this byte")?,
    )?;
    Ok(bytes)
}

/// Adds a block, which is `it` from then on.
fn add<S: Blocks>(tx: &mut Tx<S>, client: &mut Client, payload: Vec<u8>) -> Result<(), Fail>
    requires { intact_in S.meanings S.holdings tx.old }
    ensures { intact_in S.meanings S.holdings tx.new }
{
    if payload.len() != tx.payload() {
        return Err("another length".into());
    }
    client.it = tx.add(payload)?;
    Ok(())
}

/// Has a block get another payload.
fn put<S: Blocks>(tx: &mut Tx<S>, id: &BlockId, payload: Vec<u8>) -> Result<(), Fail>
    requires { intact_in S.meanings S.holdings tx.old }
    ensures { intact_in S.meanings S.holdings tx.new }
{
    if !tx.contains(id) {
        return Err("no payload".into());
    }
    if payload.len() != tx.payload() {
        return Err("another length".into());
    }
    tx.put(id, payload)?;
    Ok(())
}

fn remove<S: Blocks>(tx: &mut Tx<S>, id: &BlockId) -> Result<(), Fail>
    requires { intact_in S.meanings S.holdings tx.old }
    ensures { intact_in S.meanings S.holdings tx.new }
{
    if !tx.contains(id) {
        return Err("no payload".into());
    }
    tx.remove(id)?;
    Ok(())
}

/// What a load is answered.
type Found = Result<Option<Vec<u8>>, block_id::Fail>;

/// What a load of a block is answered, or one of its front where this says of how many bytes.
fn found<S: Blocks>(alloc: Global, tx: &mut Tx<S>, id: &BlockId, most: &str) -> Found
    requires { intact_in S.meanings S.holdings tx.old }
    ensures { intact_in S.meanings S.holdings tx.new }
{
    match most.parse() {
        Ok(most) => tx.load_front(alloc, id, most),
        Err(_) => tx.load(alloc, id),
    }
}

/// Whether a load was answered so: a payload, `none`, or `not opened`.
fn is_answer(alloc: Global, found: &Found, answer: &str) -> Result<bool, Fail> {
    match found {
        Ok(Some(bytes)) => Ok(bytes.as_slice() == payload(alloc, answer)?.as_slice()),
        Ok(None) => Ok(answer == "none"),
        Err(block_id::Fail::Violation(Why::NotOpened)) => Ok(answer == "not opened"),
        Err(_) => Ok(false),
    }
}

/// Commits the changes.
fn commit<S: BlocksMut>(
    alloc: Global,
    tx: &mut Tx<S>,
    client: &mut Client,
) -> Result<(), ApplyError>
    requires { intact_in S.Blocks.meanings S.Blocks.holdings tx.old }
    ensures { intact_in S.Blocks.meanings S.Blocks.holdings tx.new }
{
    tx.commit(alloc, &mut client.chance)
}

/// Whether a commit was answered so.
fn is_outcome(outcome: Result<(), ApplyError>, answer: &str) -> bool {
    match outcome {
        Ok(()) => answer == "ok",
        Err(ApplyError::Spent) => answer == "spent",
        Err(ApplyError::Memory) => false,
    }
}

/// Fails by this step where it is answered otherwise.
pub(crate) fn named(step: &str, is_so: bool) -> Result<(), Fail> {
    if is_so {
        Ok(())
    } else {
        Err(Fail::new(format_args!("otherwise: {step}")))
    }
}

/// One step: `add it 50 of 33`, `put 1 50 of 11`, `remove 2`, `abandon`, and what is answered, as in `commit = ok`,
/// `load 1 = 50 of 8` or, of its first bytes, `front 1 8 = 8 of 8`.
pub(crate) fn take_step<S: BlocksMut>(
    alloc: Global,
    tx: &mut Tx<S>,
    client: &mut Client,
    step: &str,
) -> Result<(), Fail>
    requires { intact_in S.Blocks.meanings S.Blocks.holdings tx.old }
    ensures { intact_in S.Blocks.meanings S.Blocks.holdings tx.new }
{
    let (what, answer) = step.split_once(" = ").unwrap_or((step, ""));
    let (verb, rest) = what.split_once(' ').unwrap_or((what, "it"));
    let (name, rest) = rest.split_once(' ').unwrap_or((rest, ""));
    let id = block(client, name)?;
    match verb {
        "add" => add(tx, client, payload(alloc, rest)?),
        "put" => put(tx, &id, payload(alloc, rest)?),
        "remove" => remove(tx, &id),
        "load" | "front" => {
            let found = found(alloc, tx, &id, rest);
            named(step, is_answer(alloc, &found, answer)?)
        }
        "commit" => named(step, is_outcome(commit(alloc, tx, client), answer)),
        "abandon" => {
            tx.abandon();
            Ok(())
        }
        _ => Err(Fail::new(format_args!("no step is {verb}"))),
    }
}

/// The steps of this text, one after another.
pub(crate) fn play<S: BlocksMut>(
    alloc: Global,
    tx: &mut Tx<S>,
    client: &mut Client,
    steps: &str,
) -> Result<(), Fail>
    requires { intact_in S.Blocks.meanings S.Blocks.holdings tx.old }
    ensures { intact_in S.Blocks.meanings S.Blocks.holdings tx.new }
{
    for step in steps.lines() {
        take_step(alloc, tx, client, step)?;
    }
    Ok(())
}
