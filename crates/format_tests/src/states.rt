// Records of the local state in both forms byte by byte, each refusal, and the table of versions.
use crate::rows::tell;
use crate::words::{array, bytes_of, hex_of, number, say, words_of};
use block_id::BlockId;
use local_state::{Known, Spent, State, StateError, decode, encode, encode_form1, key_digest};
use std::alloc::Global;
use std::test::Fail;

const ONE: BlockId = BlockId([1; 16]);

const LAST: BlockId = BlockId([0xff; 16]);

/// A record with two known blocks, a live and a dead one, and a list of the configuration and both, in form 1.
const OLDER: &str = "63727966732e6c6f63616c73746174653b310000+11*16+22*32+33*32+07000000\
    +0200000000000000+01*16+030100000000000001+02*16+020000000000000000\
    +0300000000000000+0001020000006869+01+01*16+010100000009+01+02*16+00";

/// The same in form 2, with the least format 1.
const NEWER: &str = "63727966732e6c6f63616c73746174653b32000001+11*16+22*32+33*32+07000000\
    +0200000000000000+01*16+030100000000000001+02*16+020000000000000000\
    +0300000000000000+0001020000006869+01+01*16+010100000009+01+02*16+00";

/// A record by its name or its bytes, in which bytes are set: from where, to where, and to what.
fn record(alloc: Global, rest: &str) -> Result<Vec<u8>, Fail> {
    let [name, from, to, byte, ..] = words_of(rest);
    let whole = match name {
        "older" => OLDER,
        "newer" => NEWER,
        _ => name,
    };
    let mut bytes = bytes_of(alloc, whole)?;
    let (from, to) = (number(from), number(to));
    let byte: u8 = byte.parse().unwrap_or(0);
    for (i, old) in bytes.iter_mut().enumerate() {
        if from <= i && i < to {
            *old = byte;
        }
    }
    Ok(bytes)
}

/// What a record tells, and the records of both forms of that.
#[derive(Drop)]
struct Reading {
    state: State,
    entries: usize,
    newer: Vec<u8>,
    older: Vec<u8>,
}

/// Reads a record. Form 1 has no record of another least format than 1.
fn read(alloc: Global, bytes: &[u8]) -> Result<Reading, StateError> {
    let (state, list) = decode(alloc, bytes)?;
    let newer = encode(alloc, &state, &list)?;
    let older = if state.least == 1 {
        encode_form1(alloc, &state, &list)?
    } else {
        Vec::new(alloc)
    };
    Ok(Reading {
        state,
        entries: list.len(),
        newer,
        older,
    })
}

fn is_refused(alloc: Global, bytes: &[u8]) -> bool {
    matches!(read(alloc, bytes), Err(StateError::BadState))
}

/// The version of an id, and whether it is live.
fn life_of(alloc: Global, known: &Known, id: &BlockId) -> Result<String, Fail> {
    match known.version(id) {
        Some(version) => {
            let life = if known.is_live(id) { "live" } else { "dead" };
            Ok(format!(in alloc; "{version} {life}")?)
        }
        None => say(alloc, "unknown"),
    }
}

/// Whether it is written as it was, and a record of form 1 in form 2 as well.
fn is_written(alloc: Global, reading: &Reading, bytes: &[u8], name: &str) -> Result<bool, Fail> {
    Ok(if name == "older" {
        let newer = bytes_of(alloc, NEWER)?;
        reading.older.as_slice() == bytes && reading.newer.as_slice() == newer.as_slice()
    } else {
        reading.newer.as_slice() == bytes
    })
}

/// The least format, the client, how many blocks and entries there are, and what blocks 1 and 2 are.
fn told_of(alloc: Global, reading: &Reading) -> Result<String, Fail> {
    let state = &reading.state;
    let one = life_of(alloc, &state.known, &ONE)?;
    let two = life_of(alloc, &state.known, &BlockId([2; 16]))?;
    let (blocks, entries) = (state.known.len(), reading.entries);
    Ok(format!(in alloc;
        "least {}, client {}, {blocks} blocks, {entries} entries, {one}, {two}",
        state.least, state.client
    )?)
}

/// What a record tells that is written again as it was.
pub(crate) fn told(alloc: Global, rest: &str) -> Result<String, Fail> {
    let bytes = record(alloc, rest)?;
    let reading = match read(alloc, &bytes) {
        Ok(reading) => reading,
        Err(StateError::BadState) => return say(alloc, "refused"),
        Err(StateError::Memory) => return say(alloc, "memory"),
    };
    if is_written(alloc, &reading, &bytes, rest)? {
        told_of(alloc, &reading)
    } else {
        say(alloc, "it is written otherwise")
    }
}

/// Whether no front of a record is one, nor all of it with a byte behind.
pub(crate) fn other_ends(alloc: Global, rest: &str) -> Result<String, Fail> {
    let mut bytes = record(alloc, rest)?;
    for len in 0..bytes.len() {
        if !is_refused(alloc, &bytes[..len]) {
            return Err(Fail::new(format_args!("{len} bytes are read")));
        }
    }
    bytes.push(0)?;
    say(
        alloc,
        if is_refused(alloc, &bytes) {
            "refused"
        } else {
            "read"
        },
    )
}

/// The version that a raise gives, if the id isn't zero or dead.
fn raise(known: &mut Known, id: &BlockId) -> Option<Result<u64, Spent>> {
    known.reserve(1).ok()?;
    if id.0 == [0; 16] || known.is_used(id) && !known.is_live(id) {
        return None;
    }
    Some(known.raise(id))
}

/// What block 1 is where its version can't be raised.
pub(crate) fn spent(alloc: Global, rest: &str) -> Result<String, Fail> {
    let bytes = record(alloc, rest)?;
    let mut reading = read(alloc, &bytes)?;
    if raise(&mut reading.state.known, &ONE) == Some(Err(Spent)) {
        life_of(alloc, &reading.state.known, &ONE)
    } else {
        say(alloc, "it rises")
    }
}

/// Whether an id of sixteen such bytes is raised to the version that a step says, or dies.
fn is_taken(known: &mut Known, step: &str) -> bool {
    let (digits, what) = step.split_once(':').unwrap_or((step, ""));
    let [byte] = array::<1>(digits);
    let id = BlockId([byte; 16]);
    if what != "dead" {
        return raise(known, &id) == Some(Ok(what.parse().unwrap_or(0)));
    }
    if known.is_live(&id) {
        known.bury(&id);
        return true;
    }
    false
}

/// The record of these blocks without a list.
fn written(alloc: Global, known: Known) -> Result<String, Fail> {
    let state = State {
        marked: false,
        least: 1,
        fs_id: BlockId([0x11; 16]),
        key_salt: [0x22; 32],
        key_digest: [0x33; 32],
        client: 7,
        known,
    };
    let bytes = encode(alloc, &state, &[])?;
    hex_of(alloc, &bytes)
}

/// The live ids, one behind another, or none.
fn live_ids(alloc: Global, known: &Known) -> Result<String, Fail> {
    let ids = known.live_ids(alloc)?;
    if ids.is_empty() {
        return say(alloc, "none");
    }
    let mut bytes = Vec::new(alloc);
    for id in &ids {
        bytes.extend_from_slice(&id.0)?;
    }
    hex_of(alloc, &bytes)
}

/// After these steps the record, the live ids, what the last id is, or the first fresh one from there on.
pub(crate) fn known(alloc: Global, word: &str, steps: &str) -> Result<String, Fail> {
    let mut known = Known::new(alloc);
    for step in steps.split(' ') {
        if step != "-" && !is_taken(&mut known, step) {
            return Err(Fail::new(format_args!("not so: {step}")));
        }
    }
    match word {
        "written" => written(alloc, known),
        "live" => live_ids(alloc, &known),
        "last" => life_of(alloc, &known, &LAST),
        _ => hex_of(alloc, &known.fresh(LAST).0),
    }
}

/// The digest of a salt and a key.
pub(crate) fn digest(alloc: Global, rest: &str) -> Result<String, Fail> {
    let [salt, key, ..] = words_of(rest);
    hex_of(alloc, &key_digest(&array(salt), &array(key)))
}

/// Records of 121 and of 146 bytes are written, and each record is read and written again as it was. Then from where to where
/// bytes are set, to what, and what is then wrong.
const RECORDS: &str =
    "written - = 63727966732e6c6f63616c73746174653b3200000111111111111111111111111111111111222222222222222222222222222222222222222222222222222222222222222233333333333333333333333333333333333333333333333333333333333333330700000000000000000000000000000000000000
state 63727966732e6c6f63616c73746174653b32000001+11*16+22*32+33*32+07000000+00*16 = least 1, client 7, 0 blocks, 0 entries, unknown, unknown
written 01:1 = 63727966732e6c6f63616c73746174653b320000011111111111111111111111111111111122222222222222222222222222222222222222222222222222222222222222223333333333333333333333333333333333333333333333333333333333333333070000000100000000000000010101010101010101010101010101010100000000000000010000000000000000
state newer = least 1, client 7, 2 blocks, 3 entries, 259 live, 2 dead
state older = least 1, client 7, 2 blocks, 3 entries, 259 live, 2 dead
state newer 20 21 2 = least 2, client 7, 2 blocks, 3 entries, 259 live, 2 dead
other-ends older = refused
other-ends newer = refused
spent newer 129 137 255 = 18446744073709551615 live
digest 0000000000000000000000000000000000000000000000000000000000000000 0000000000000000000000000000000000000000000000000000000000000000 = f5a5fd42d16a20302798ef6ed309979b43003d2320d9f0e8ea9831a92759fb4b
state older 0 1 67 other magic bytes = refused
state older 19 20 2 a mark of 2 = refused
state older 100 101 0 client 0 = refused
state older 104 105 3 more blocks than there are = refused
state older 104 112 255 2^64 - 1 blocks = refused
state older 112 128 0 a zero id = refused
state older 128 130 0 version 0 = refused
state older 136 137 2 neither live nor dead = refused
state older 137 153 1 an id twice = refused
state older 137 138 0 ids out of order = refused
state older 136 137 0 bytes for a dead id = refused
state older 161 162 1 a removal for a live id = refused
state older 162 163 4 more entries than there are = refused
state older 170 171 2 a name of another kind = refused
state older 178 179 0 the configuration after itself = refused
state older 179 180 9 an unknown id = refused
state older 196 197 255 a longer file than there is = refused
state older 202 218 1 an entry twice = refused
state newer 0 1 67 other magic bytes = refused
state newer 19 20 2 a mark of 2 = refused
state newer 101 102 0 client 0 = refused
state newer 105 106 3 more blocks than there are = refused
state newer 105 113 255 2^64 - 1 blocks = refused
state newer 113 129 0 a zero id = refused
state newer 129 131 0 version 0 = refused
state newer 137 138 2 neither live nor dead = refused
state newer 138 154 1 an id twice = refused
state newer 138 139 0 ids out of order = refused
state newer 137 138 0 bytes for a dead id = refused
state newer 162 163 1 a removal for a live id = refused
state newer 163 164 4 more entries than there are = refused
state newer 171 172 2 a name of another kind = refused
state newer 179 180 0 the configuration after itself = refused
state newer 180 181 9 an unknown id = refused
state newer 197 198 255 a longer file than there is = refused
state newer 203 219 1 an entry twice = refused
state newer 20 21 0 least format 0 = refused
state newer 20 21 3 least format 3 = refused
state newer 20 21 255 least format 255 = refused";

#[test]
fn records_are_read_or_refused(rt: HostRuntime) -> Result<(), Fail> {
    tell(&rt, RECORDS)
}

/// Steps raise an id of sixteen such bytes to a version, or let it die.
const KNOWN: &str = "last ff:1 ff:2 ff:dead = 2 dead
fresh ff:1 ff:2 ff:dead = 00000000000000000000000000000001
live - = none
live 07:1 ff:1 01:1 80:1 03:1 ff:dead 03:dead = 010101010101010101010101010101010707070707070707070707070707070780808080808080808080808080808080";

#[test]
fn versions_rise_and_dead_ids_stay_used(rt: HostRuntime) -> Result<(), Fail> {
    tell(&rt, KNOWN)
}
