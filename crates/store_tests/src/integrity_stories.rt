// Stories of a store of blocks over a directory in memory: what its client knows, what the files hold, and what is done.
ghost use Rattle.std.specs.Prelude.{◌≡◌, IfOk};
ghost use Rattle.block_cache.specs.store_api.Holdings.{IsFew};
ghost use Rattle.block_cache.specs.store_api.Txs.{intact_in};

use crate::client_files::{directory_of, draw, file_in, known_in, number, record_of};
use crate::client_steps::{Client, SEED, block, named, new_client, take_step};
use crate::counted_seals::CountedSeals;
use block_cache::store_api::{Blocks, Durable, Tx};
use integrity_store::IntegrityStore;
use integrity_store::local_state::{State, decode};
use integrity_store::redo_vault::RedoVault;
use integrity_store::sealed_store::SealedStore;
use memory_outside::MemoryVault;
use outside::{Change, FileName, Pending, Vault};
use rand_core::Rng;
use std::alloc::Global;
use std::cell::Cell;
use std::test::Fail;

type Store<'a> = IntegrityStore<MemoryVault, CountedSeals<'a>>;

/// A store of blocks of 128 bytes over this directory, of a client with this record.
fn store_of<'a>(
    alloc: Global,
    below: MemoryVault,
    record: &[u8],
    seals: &'a Cell<u64>,
) -> Result<Store<'a>, Fail>
    ensures intact { IfOk result (λ store. ⟦<Store<'a> as Blocks>⟧.meanings.intact store) }
    ensures few { IfOk result (λ store. IsFew (⟦<Store<'a> as Blocks>⟧.holdings.used store)) }
{
    let (state, list) = decode(alloc, record)?;
    if !list.is_empty() {
        return Err("a list".into());
    }
    let vault = RedoVault::new(below, Vec::new(alloc));
    let sealed = SealedStore::new(vault, CountedSeals { seals }, [3; 32], 128);
    Ok(IntegrityStore::new(sealed, state))
}

/// What the local record says: what is known, and what waits.
fn recorded<S: Durable>(alloc: Global, store: &mut S) -> Result<(State, Vec<Pending>), Fail>
    requires { S.Durable.meanings.intact store.old }
    ensures { store.new ≡ store.old }
{
    let record = store.state_bytes(alloc, true)?;
    Ok(decode(alloc, &record)?)
}

/// Whether a change waits so: `1 with draw 1`, of a file that is sealed with this IV, or `2 removed`.
fn is_waiting(client: &Client, pending: &Pending, row: &str) -> Result<bool, Fail> {
    let (name, how) = row.split_once(' ').ok_or("a block, and how it waits")?;
    let is_how = match (&pending.change, how.strip_prefix("with draw ")) {
        (Change::Bytes(file), Some(count)) => {
            file.get(16..32) == Some(draw(number(count)?).as_slice())
        }
        (Change::Removal, None) => how == "removed",
        _ => false,
    };
    Ok(is_how && pending.name == FileName::Block(block(client, name)?))
}

/// Whether these changes wait, in this order, or `nothing`.
fn are_waiting(client: &Client, list: &[Pending], rows: &str) -> Result<bool, Fail> {
    if rows == "nothing" {
        return Ok(list.is_empty());
    }
    let mut rows = rows.split(", ");
    for pending in list {
        let row = rows.next().ok_or("fewer rows")?;
        if !is_waiting(client, pending, row)? {
            return Ok(false);
        }
    }
    Ok(rows.next().is_none())
}

/// Whether a store has these blocks so, and the record their versions.
fn are_known<S: Blocks>(
    store: &S,
    state: &State,
    client: &Client,
    rows: &str,
) -> Result<bool, Fail> {
    for row in rows.split(", ") {
        let (id, live, used, version) = known_in(client, row)?;
        if (store.contains(&id), store.is_used(&id)) != (live, used) {
            return Ok(false);
        }
        let known = &state.known;
        if (known.is_live(&id), known.version(&id)) != (live, version) {
            return Ok(false);
        }
    }
    Ok(true)
}

/// Whether so many IVs were drawn. One more is drawn then.
fn has_drawn(client: &mut Client, count: u64) -> bool {
    let mut next = [0; 16];
    client.chance.fill_bytes(&mut next);
    next == draw(count.saturating_add(1))
}

/// Whether all is as a line says: `knows 1 live at 3, 2 removed at 5, it unknown`, `waits 1 with draw 1, 2 removed`, `drawn 2`
/// of IVs, or `sealed 1` of files.
fn is_so_far<S: Durable>(
    alloc: Global,
    tx: &mut Tx<S>,
    client: &mut Client,
    seals: &Cell<u64>,
    line: &str,
) -> Result<bool, Fail>
    requires { intact_in S.Blocks.meanings S.Blocks.holdings tx.old }
    ensures { intact_in S.Blocks.meanings S.Blocks.holdings tx.new }
{
    let (what, rest) = line.split_once(' ').ok_or("a line has two words")?;
    match what {
        "drawn" => Ok(has_drawn(client, number(rest)?)),
        "sealed" => Ok(seals.get() == number(rest)?),
        "knows" => {
            let (state, _) = recorded(alloc, &mut tx.store)?;
            are_known(&tx.store, &state, client, rest)
        }
        _ => {
            let (_, list) = recorded(alloc, &mut tx.store)?;
            are_waiting(client, &list, rest)
        }
    }
}

/// These steps, and after `! ` what is so between them.
fn go_on<S: Durable>(
    alloc: Global,
    tx: &mut Tx<S>,
    client: &mut Client,
    seals: &Cell<u64>,
    steps: &str,
) -> Result<(), Fail>
    requires { intact_in S.Blocks.meanings S.Blocks.holdings tx.old }
    ensures { intact_in S.Blocks.meanings S.Blocks.holdings tx.new }
{
    for step in steps.lines() {
        match step.strip_prefix("! ") {
            Some(line) => named(step, is_so_far(alloc, tx, client, seals, line)?)?,
            None => take_step(alloc, tx, client, step)?,
        }
    }
    Ok(())
}

/// The directory, once all was written.
fn written<'a>(alloc: Global, mut store: Store<'a>) -> Result<MemoryVault, Fail>
    requires { ⟦<Store<'a> as Blocks>⟧.meanings.intact store }
{
    store.write_out(alloc)?;
    Ok(store.into_vault())
}

/// Whether a directory has the file of this row.
fn is_there(
    alloc: Global,
    below: &mut MemoryVault,
    client: &Client,
    row: &str,
) -> Result<bool, Fail> {
    let (id, file) = file_in(alloc, client, row)?;
    match below.get(alloc, &FileName::Block(id), 129)? {
        Some(found) => Ok(found.as_slice() == file.as_slice()),
        None => Ok(false),
    }
}

/// Once all was written, the directory has these files, and after `! sealed ` so many were sealed in all.
fn ends<'a>(
    alloc: Global,
    store: Store<'a>,
    client: &Client,
    seals: &Cell<u64>,
    lines: &str,
) -> Result<(), Fail>
    requires { ⟦<Store<'a> as Blocks>⟧.meanings.intact store }
{
    let mut below = written(alloc, store)?;
    for line in lines.lines() {
        let is_so = match line.strip_prefix("! sealed ") {
            Some(count) => seals.get() == number(count)?,
            None => is_there(alloc, &mut below, client, line)?,
        };
        named(line, is_so)?;
    }
    Ok(())
}

/// What is known, the files, the steps, and what is there once all was written.
fn parts(story: &str) -> Option<(&str, &str, &str, &str)> {
    let (_, rest) = story.split_once("\nknows ")?;
    let (known, rest) = rest.split_once("\nfiles ")?;
    let (files, rest) = rest.split_once('\n')?;
    let (steps, lines) = rest.split_once("> written\n").unwrap_or((rest, ""));
    Some((known, files, steps, lines))
}

/// A store of a client who knows these blocks, over these files.
fn begun<'a>(
    alloc: Global,
    client: &Client,
    known: &str,
    files: &str,
    seals: &'a Cell<u64>,
) -> Result<Store<'a>, Fail>
    ensures intact { IfOk result (λ store. ⟦<Store<'a> as Blocks>⟧.meanings.intact store) }
    ensures few { IfOk result (λ store. IsFew (⟦<Store<'a> as Blocks>⟧.holdings.used store)) }
{
    let record = record_of(alloc, client, known)?;
    store_of(alloc, directory_of(alloc, client, files)?, &record, seals)
}

/// The steps over a store, and the store after them.
fn gone_on<'a>(
    alloc: Global,
    store: Store<'a>,
    client: &mut Client,
    seals: &Cell<u64>,
    steps: &str,
) -> (Store<'a>, Result<(), Fail>)
    requires intact { ⟦<Store<'a> as Blocks>⟧.meanings.intact store }
    requires few { IsFew (⟦<Store<'a> as Blocks>⟧.holdings.used store) }
    ensures { ⟦<Store<'a> as Blocks>⟧.meanings.intact result.0 }
{
    let mut tx = Tx::new(alloc, store, SEED);
    let told = go_on(alloc, &mut tx, client, seals, steps);
    (tx.into_store(), told)
}

fn play_story(alloc: Global, story: &str) -> Result<(), Fail> {
    let (known, files, steps, lines) = parts(story).ok_or("a story has its parts")?;
    let seals = Cell::new(0);
    let mut client = new_client();
    let store = begun(alloc, &client, known, files, &seals)?;
    let (store, told) = gone_on(alloc, store, &mut client, &seals, steps);
    told?;
    ends(alloc, store, &client, &seals, lines)
}

/// Tells these stories, each of which begins with `# ` and its title.
fn tell(rt: &HostRuntime, stories: &str) -> Result<(), Fail> {
    for story in stories.split("# ") {
        if !story.is_empty() {
            let told = play_story(rt.alloc(), story);
            if told.is_err() {
                let _ = println!(rt; "in {}", story.lines().next().unwrap_or(""));
            }
            told?;
        }
    }
    Ok(())
}

const BATCHES: &str = "# a batch is put in an order that isn't that of the ids, and removes a block
knows 1 live at 2, 2 live at 5
files 1 at 2 of 8, 2 at 5 of 9
add it 50 of 33
load 1 = 50 of 8
put 1 50 of 11
load 2 = 50 of 9
remove 2
commit = ok
abandon
load 1 = 50 of 11
load 2 = none
load it = 50 of 33
! knows 1 live at 3, 2 removed at 5, it live at 1
! drawn 2
! waits 1 with draw 1, 2 removed, it with draw 2
> written
1 at 3 of 11 with draw 1
it at 1 of 33 with draw 2
# a batch changes nothing where an id is spent
knows 1 live at 18446744073709551615, 2 live at 5
files 1 at 18446744073709551615 of 8, 2 at 5 of 9
add it 50 of 33
load 1 = 50 of 8
put 1 50 of 11
load 2 = 50 of 9
remove 2
commit = spent
abandon
load 1 = 50 of 8
load 2 = 50 of 9
load it = none
! knows 1 live at 18446744073709551615, 2 live at 5, it unknown
! drawn 0
! waits nothing
# a block whose id is spent can be removed
knows 1 live at 18446744073709551615, 2 live at 5
files 1 at 18446744073709551615 of 8, 2 at 5 of 9
load 1 = 50 of 8
remove 1
commit = ok
! knows 1 removed at 18446744073709551615
# the file of a block that changed ten times is sealed once, as the record lists it
knows nothing
files nothing
add it 50 of 1
commit = ok
put it 50 of 2
commit = ok
put it 50 of 3
commit = ok
put it 50 of 4
commit = ok
put it 50 of 5
commit = ok
put it 50 of 6
commit = ok
put it 50 of 7
commit = ok
put it 50 of 8
commit = ok
put it 50 of 9
commit = ok
put it 50 of 10
commit = ok
! sealed 0
! waits it with draw 10
! sealed 1
! waits it with draw 10
! sealed 1
put it 50 of 11
commit = ok
! sealed 2
! waits it with draw 11
! sealed 2
> written
it at 11 of 11 with draw 11
! sealed 2
";

#[test]
fn batches_are_made_whole_or_not_at_all(rt: HostRuntime) -> Result<(), Fail> {
    tell(&rt, BATCHES)
}

const LOADS: &str = "# a block gets another payload
knows 1 live at 2, 4 removed at 3
files 1 at 2 of 8
put 1 50 of 11
commit = ok
load 1 = 50 of 11
load 4 = none
! knows 1 live at 3
! waits 1 with draw 1
! drawn 1
> written
1 at 3 of 11 with draw 1
! sealed 1
# a removed block isn't brought back
knows 1 live at 2, 4 removed at 3
files 4 at 3 of 9
load 4 = none
front 4 8 = none
# the front of a file is told
knows 1 live at 2, 4 removed at 3
files 1 at 2 of 8
front 1 8 = 8 of 8
# a file that ends wrong is judged whole before its front is told
knows 1 live at 2, 4 removed at 3
files 1 at 2 of 8 ending wrong
front 1 8 = not opened
# fronts of what waits are told before and after a load, and after another change
knows 1 live at 2, 4 removed at 3
files 1 at 2 of 8
put 1 abcdefghijklmnopqrstuvwxyzABCDEFGHIJKLMNOPQRSTUVWX
commit = ok
front 1 0 = 0 of 0
front 1 1 = a
front 1 8 = abcdefgh
front 1 50 = abcdefghijklmnopqrstuvwxyzABCDEFGHIJKLMNOPQRSTUVWX
front 1 51 = abcdefghijklmnopqrstuvwxyzABCDEFGHIJKLMNOPQRSTUVWX
load 1 = abcdefghijklmnopqrstuvwxyzABCDEFGHIJKLMNOPQRSTUVWX
front 1 0 = 0 of 0
front 1 1 = a
front 1 8 = abcdefgh
front 1 50 = abcdefghijklmnopqrstuvwxyzABCDEFGHIJKLMNOPQRSTUVWX
front 1 51 = abcdefghijklmnopqrstuvwxyzABCDEFGHIJKLMNOPQRSTUVWX
put 1 XWVUTSRQPONMLKJIHGFEDCBAzyxwvutsrqponmlkjihgfedcba
commit = ok
front 1 0 = 0 of 0
front 1 1 = X
front 1 8 = XWVUTSRQ
front 1 50 = XWVUTSRQPONMLKJIHGFEDCBAzyxwvutsrqponmlkjihgfedcba
front 1 51 = XWVUTSRQPONMLKJIHGFEDCBAzyxwvutsrqponmlkjihgfedcba
front 4 8 = none
";

#[test]
fn loads_are_answered_by_what_is_known(rt: HostRuntime) -> Result<(), Fail> {
    tell(&rt, LOADS)
}
