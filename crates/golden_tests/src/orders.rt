// What a story orders between its runs.

use crate::damage::has_verdict;
use crate::older::{become_older, copied, is_violation};
use crate::opening::shows_report;
use crate::stories::Tale;
use crate::system::{block_of, stored_system};
use std::alloc::Global;
use std::test::Fail;
use test_systems::{System, count_blocks, file, store};

/// There are as many as the order says.
fn are_so_many(said: &str, found: usize) -> Result<(), Fail> {
    let wanted: usize = said.parse().ok().ok_or("this is no number")?;
    if found == wanted {
        Ok(())
    } else {
        Err(Fail::new(format_args!("{found} and not {wanted}")))
    }
}

/// How many bytes the record has.
fn bytes_kept(system: &System) -> usize {
    system.keeper.kept().unwrap_or(&[]).len()
}

/// The record is as it was noted.
fn keeps_noted(tale: &Tale) -> Result<(), Fail> {
    if tale.system.keeper.kept() == tale.noted.keeper.kept() {
        Ok(())
    } else {
        Err(Fail::new("another record is kept"))
    }
}

/// The file of this name is as it was noted.
fn is_noted(alloc: Global, tale: &Tale, name: &str) -> Result<(), Fail> {
    let noted = file(alloc, tale.noted.vault.files(), block_of(name)?)?;
    if file(alloc, tale.system.vault.files(), block_of(name)?)? == noted {
        Ok(())
    } else {
        Err(Fail::new("another file is there"))
    }
}

/// Puts the noted file of this name in its place.
fn put_back(alloc: Global, tale: &mut Tale, name: &str) -> Result<(), Fail> {
    let noted = file(alloc, tale.noted.vault.files(), block_of(name)?)?;
    Ok(store(alloc, &mut tale.system, block_of(name)?, Some(noted))?)
}

/// Begins with the stored file system.
fn begin(alloc: Global, tale: &mut Tale, record: &str) -> Result<(), Fail> {
    tale.system = stored_system(alloc, record)?;
    Ok(())
}

/// Notes how all is.
fn take_note(alloc: Global, tale: &mut Tale) -> Result<(), Fail> {
    tale.noted = copied(alloc, &tale.system)?;
    Ok(())
}

/// Does what an order says.
pub fn obey(alloc: Global, tale: &mut Tale, order: &str) -> Result<(), Fail> {
    let (name, rest) = order.split_once(' ').unwrap_or((order, ""));
    match name {
        "stored" | "waiting" => begin(alloc, tale, name),
        "older" => become_older(alloc, &mut tale.system),
        "note" => take_note(alloc, tale),
        "remove" => Ok(store(alloc, &mut tale.system, block_of(rest)?, None)?),
        "put-back" => put_back(alloc, tale, rest),
        "blocks" => are_so_many(rest, count_blocks(&tale.system.vault)),
        "keeps" => are_so_many(rest, bytes_kept(&tale.system)),
        "keeps-noted" => keeps_noted(tale),
        "same" => is_noted(alloc, tale, rest),
        "root-as" => is_violation(alloc, tale, rest),
        "damaged" => has_verdict(alloc, tale, rest),
        "report" => shows_report(alloc, &mut tale.system),
        _ => Err(Fail::new(format_args!("no order is {name}"))),
    }
}
