// What a story orders between its runs.

use crate::changes::{add_stranger, change_file, change_record, put_back};
use crate::counts::is_counted;
use crate::failing::set_failing;
use crate::hand::system_by_hand;
use crate::inputs::number;
use crate::stories::{Row, play};
use crate::tale::{Manner, PLAIN, Tale, is_kept, take_note};
use std::alloc::Global;
use std::test::Fail;
use test_systems::{System, nothing};

/// The forms that open a file system.
const FORMS: &str = "info passwd shell generate|1 ls|/";

/// Each form that opens a file system ends so, and writes nothing.
fn each_form_ends(alloc: Global, tale: &mut Tale, sentence: &str) -> Result<(), Fail> {
    for words in FORMS.split(' ') {
        let row = Row {
            words,
            input: "pw\n",
            sentence,
            text: "",
        };
        play(alloc, tale, &row)?;
    }
    Ok(())
}

/// A session lists nothing, or `/a`.
fn lists(alloc: Global, tale: &mut Tale, what: &str) -> Result<(), Fail> {
    let row = Row {
        words: "shell",
        input: "pw\nls /\n",
        sentence: "",
        text: if what == "a" {
            "list 1\nd a\n"
        } else {
            "list 0\n"
        },
    };
    play(alloc, tale, &row)
}

/// What a session lists where saves that fail keep the old record, and where they keep the new one: `nothing a`.
fn lists_old_or_new(alloc: Global, tale: &mut Tale, both: &str) -> Result<(), Fail> {
    let (old, new) = both
        .split_once(' ')
        .ok_or("a list of the old tree, and of the new")?;
    let keeps = tale.manner.keeps;
    lists(alloc, tale, if keeps { new } else { old })
}

/// Sets how runs are from here on, where the order says that.
fn set_manner(manner: &mut Manner, name: &str, rest: &str) -> Result<bool, Fail> {
    match name {
        "plain" => *manner = PLAIN,
        "whole" => manner.whole = true,
        "keeps" => manner.keeps = true,
        "piece" => manner.piece = rest.parse().ok().ok_or("this is no number")?,
        "read-fails" => manner.reads = [number(rest)?],
        "write-fails" => manner.writes = [number(rest)?],
        "at" => {
            manner.secs = number(rest)?;
            manner.nanos = 0;
        }
        _ => return Ok(false),
    }
    Ok(true)
}

/// The record is as it was at the last note.
fn has_kept(tale: &Tale) -> Result<(), Fail> {
    if is_kept(tale) {
        Ok(())
    } else {
        Err(Fail::new("another record is kept"))
    }
}

/// Begins over nothing, or with the record of the configuration that was made by hand.
fn begin_anew(alloc: Global, system: &mut System, name: &str) -> Result<(), Fail> {
    *system = match name {
        "by-hand" => system_by_hand(alloc)?,
        _ => nothing(alloc),
    };
    Ok(())
}

/// Changes the files or the record, or looks at them, where the order says that.
fn act(alloc: Global, tale: &mut Tale, name: &str, rest: &str) -> Result<(), Fail> {
    match name {
        "note" => Ok(take_note(alloc, tale)?),
        "count" => is_counted(tale, rest),
        "kept" => has_kept(tale),
        "file" => change_file(alloc, tale, rest),
        "record" => change_record(alloc, tale, rest),
        "put-back" => put_back(alloc, tale, rest),
        "stranger" => add_stranger(alloc, &mut tale.system, rest),
        "forms" => each_form_ends(alloc, tale, rest),
        "lists" => lists_old_or_new(alloc, tale, rest),
        "nothing" | "by-hand" => begin_anew(alloc, &mut tale.system, name),
        _ => Err(Fail::new(format_args!("no order is {name}"))),
    }
}

/// Does what an order says.
pub fn obey(alloc: Global, tale: &mut Tale, order: &str) -> Result<(), Fail> {
    let (name, rest) = order.split_once(' ').unwrap_or((order, ""));
    if set_manner(&mut tale.manner, name, rest)? {
        return Ok(());
    }
    let keeps = tale.manner.keeps;
    if set_failing(alloc, &mut tale.system, keeps, name, rest)? {
        return Ok(());
    }
    act(alloc, tale, name, rest)
}
