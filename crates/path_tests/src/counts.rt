// How many files the lines of a story read and write, each on rows that were made before.
ghost use Rattle.std.specs.Prelude.{IfOk};
ghost use Rattle.memory_stores.specs.store_api.Holdings.{IsFew};

use crate::tower::{Store, answer_each, empty_store, rooted};
use memory_outside::Event;
use memory_stores::store_api::{Durable, Tx};
use path_layer::blob_store::BlobStore;
use std::alloc::Global;
use std::test::Fail;

/// How many files were read and written in a store's directory.
pub fn counted(store: Store) -> (usize, usize) {
    let vault = store.into_vault();
    let mut got = 0usize;
    let mut put = 0usize;
    for event in vault.trace() {
        match event {
            Event::Got { .. } => got = got.saturating_add(1),
            Event::Put { .. } => put = put.saturating_add(1),
            Event::Removed { .. } => {}
        }
    }
    (got, put)
}

/// The store after these lines, with all blocks written. New ids come of a seed of this byte.
fn after<S: Durable + Drop>(alloc: Global, store: S, seed: u8, lines: &str) -> Result<S, Fail>
    requires intact { S.Durable.meanings.intact store }
    requires few { IsFew (S.Durable.holdings.used store) }
    ensures intact { IfOk result (λ made. S.Durable.meanings.intact made) }
    ensures few { IfOk result (λ made. IsFew (S.Durable.holdings.used made)) }
{
    let mut blobs = BlobStore::new(Tx::new(alloc, store, [seed; 32]));
    let texts = answer_each(alloc, &mut blobs, lines);
    let mut store = blobs.into_tx().into_store();
    drop(texts?);
    store.write_out(alloc)?;
    Ok(store)
}

/// How many files were read and written for this line, or none, behind those that make the rows.
fn files_of(alloc: Global, made: &str, line: &str) -> Result<(usize, usize), Fail> {
    let store = after(alloc, rooted(alloc, empty_store(alloc)?)?, 1, made)?;
    Ok(counted(after(alloc, store, 2, line)?))
}

/// A line behind `> ` reads and writes as many files as stands below it.
fn costs_so(alloc: Global, made: &str, written: usize, row: &str) -> Result<(), Fail> {
    let (line, _) = row.split_once('\n').ok_or("counts stand below a line")?;
    let (got, put) = files_of(alloc, made, line)?;
    let put = put.saturating_sub(written);
    let found = format!(in alloc; "{line}\nread {got}, written {put}\n")?;
    if found.as_str() == row {
        Ok(())
    } else {
        Err(Fail::new(format_args!("{found} and not {row}")))
    }
}

/// Each line reads and writes so many files, where the story's first lines made the rows:
///
///     mkfile /a
///     > rm /a
///     read 10, written 3
pub fn cost_so(alloc: Global, story: &str) -> Result<(), Fail> {
    let (made, rows) = story
        .split_once("> ")
        .ok_or("lines stand behind what is made")?;
    let (_, written) = files_of(alloc, made, "")?;
    for row in rows.split("> ") {
        costs_so(alloc, made, written, row)?;
    }
    Ok(())
}
