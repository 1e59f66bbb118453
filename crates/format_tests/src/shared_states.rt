// Records of several clients byte by byte, each refusal, and the keeper that shows them.
use crate::rows::tell;
use crate::words::{bytes_of, hex_of, number, say, words_of};
use local_state::StateError;
use memory_outside::MemoryKeeper;
use outside::Keeper;
use shared_keeper::SharedKeeper;
use shared_records::{SharedRecord, decode_shared, encode_shared, split_shared};
use std::alloc::Global;
use std::test::Fail;

/// The front of a record in form 3: two known blocks, a live and a dead one, and a list of the configuration and both.
const FRONT: &str = "63727966732e6c6f63616c73746174653b33000001+11*16+22*32+33*32+07000000\
    +0200000000000000+01*16+030100000000000001+02*16+020000000000000000\
    +0300000000000000+0001020000006869+01+01*16+010100000009+01+02*16+00";

/// The same as form 2.
const SHOWN: &str = "63727966732e6c6f63616c73746174653b32000001+11*16+22*32+33*32+07000000\
    +0200000000000000+01*16+030100000000000001+02*16+020000000000000000\
    +0300000000000000+0001020000006869+01+01*16+010100000009+01+02*16+00";

/// Versions of block 1 by clients 3 and 8, and of block 9 by client 1.
const OTHERS: &str =
    "0300000000000000+01*16+030000000500000000000000+01*16+080000000600000000000000\
    +09*16+010000000700000000000000";

/// The front with these versions behind it, in which bytes are set: from where, to where, and to what.
fn record(alloc: Global, others: &str, rest: &str) -> Result<Vec<u8>, Fail> {
    let [from, to, byte, ..] = words_of(rest);
    let mut bytes = bytes_of(alloc, FRONT)?;
    bytes.extend_from_slice(&bytes_of(alloc, others)?)?;
    let (from, to) = (number(from), number(to));
    let byte: u8 = byte.parse().unwrap_or(0);
    for (i, old) in bytes.iter_mut().enumerate() {
        if from <= i && i < to {
            *old = byte;
        }
    }
    Ok(bytes)
}

/// Reads a record and writes it again.
fn read(alloc: Global, bytes: &[u8]) -> Result<(SharedRecord, Vec<u8>), StateError> {
    let record = decode_shared(alloc, bytes)?;
    let again = encode_shared(alloc, &record.state, &record.list, &record.others)?;
    Ok((record, again))
}

fn is_refused(alloc: Global, bytes: &[u8]) -> bool {
    split_shared(bytes).is_none() && matches!(read(alloc, bytes), Err(StateError::BadState))
}

/// What a record tells that is written again as it was.
pub(crate) fn told(alloc: Global, rest: &str) -> Result<String, Fail> {
    let (others, set) = rest.split_once(' ').unwrap_or((rest, ""));
    let bytes = record(alloc, if others == "others" { OTHERS } else { others }, set)?;
    if is_refused(alloc, &bytes) {
        return say(alloc, "refused");
    }
    let (record, again) = read(alloc, &bytes)?;
    if again.as_slice() != bytes.as_slice() {
        return say(alloc, "it is written otherwise");
    }
    let front = split_shared(&bytes).unwrap_or(0);
    let (blocks, entries, noted) = (
        record.state.known.len(),
        record.list.len(),
        record.others.len(),
    );
    Ok(format!(in alloc;
        "client {}, {blocks} blocks, {entries} entries, {noted} of others behind {front} bytes",
        record.state.client
    )?)
}

/// Whether no front of a record is one, nor all of it with a byte behind.
pub(crate) fn other_ends(alloc: Global) -> Result<String, Fail> {
    let mut bytes = record(alloc, OTHERS, "")?;
    for len in 0..bytes.len() {
        if !is_refused(alloc, &bytes[..len]) {
            return Err(Fail::new(format_args!("{len} bytes are read")));
        }
    }
    bytes.push(0)?;
    say(
        alloc,
        if is_refused(alloc, &bytes) {
            "refused"
        } else {
            "read"
        },
    )
}

/// What a keeper shows, if it can be saved again.
fn saved_again(alloc: Global, keeper: &mut SharedKeeper<MemoryKeeper>) -> Result<Vec<u8>, Fail> {
    let Ok(Some(shown)) = keeper.load(alloc) else {
        return Err(Fail::new(format_args!("it isn't loaded")));
    };
    keeper.prepare(alloc, shown.len())?;
    match keeper.save(&shown) {
        Ok(()) => Ok(shown),
        Err(_) => Err(Fail::new(format_args!("it isn't saved"))),
    }
}

/// What a keeper over a record shows of it, and what is kept once that was saved again.
fn shown_and_kept(alloc: Global, bytes: Vec<u8>) -> Result<(Vec<u8>, Vec<u8>), Fail> {
    let below = MemoryKeeper::new(alloc, Some(bytes), Vec::new(alloc));
    let Ok(mut keeper) = SharedKeeper::open(alloc, below) else {
        return Err(Fail::new(format_args!("it isn't opened")));
    };
    let shown = saved_again(alloc, &mut keeper)?;
    let below = keeper.into_keeper();
    match below.kept() {
        Some(kept) => Ok((shown, Vec::from_slice(alloc, kept)?)),
        None => Err(Fail::new(format_args!("nothing is kept"))),
    }
}

/// Whether a keeper shows a record as form 2, and keeps it as it was once that is saved.
pub(crate) fn shown(alloc: Global) -> Result<String, Fail> {
    let bytes = record(alloc, OTHERS, "")?;
    let (shown, kept) = shown_and_kept(alloc, Vec::from_slice(alloc, &bytes)?)?;
    if kept.as_slice() != bytes.as_slice() {
        return say(alloc, "it is kept otherwise");
    }
    if shown.as_slice() != bytes_of(alloc, SHOWN)?.as_slice() {
        return hex_of(alloc, &shown);
    }
    say(alloc, "form 2")
}

/// Versions of others behind a record, and then from where to where bytes are set, to what, and what is then wrong.
const SHARED: &str = "shared others = client 7, 2 blocks, 3 entries, 3 of others behind 220 bytes
shared 00*8 = client 7, 2 blocks, 3 entries, 0 of others behind 220 bytes
shared-ends - = refused
shared-shown - = form 2
shared others 17 18 50 form 2 with versions of others = refused
shared others 17 18 52 another form = refused
shared others 20 21 3 least format 3 = refused
shared others 101 102 0 client 0 = refused
shared others 137 138 0 bytes for a dead id = refused
shared others 138 139 0 ids out of order = refused
shared others 180 181 9 an unknown id = refused
shared others 220 221 4 more versions than there are = refused
shared others 220 221 2 fewer versions than there are = refused
shared others 244 245 7 a version of the own client = refused
shared others 272 273 3 two versions of one block and client = refused
shared others 272 273 2 clients out of order = refused
shared others 228 229 9 blocks out of order = refused
shared - = refused";

#[test]
fn shared_records_are_read_or_refused(rt: HostRuntime) -> Result<(), Fail> {
    tell(&rt, SHARED)
}
