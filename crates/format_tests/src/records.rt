// Records byte by byte, and what a client says of each. Client 7 asks for block 1, which it knows at version 2, of blocks
// of 128 bytes.

use crate::rows::tell;
use crate::words::{array, bytes_of, hex_of, say, words_of};
use block_id::{BlockId, Why};
use block_versions::sealed_store::Seen;
use block_versions::{HEAD_LEN, OVERHEAD, judge, read_head, write_record};
use std::alloc::Global;
use std::test::Fail;

const ID: BlockId = BlockId([1; 16]);

/// The record of an id, a client, a version and a payload, the numbers with their high byte first.
pub(crate) fn written(alloc: Global, rest: &str) -> Result<String, Fail> {
    let [id, client, version, payload, ..] = words_of(rest);
    let client = u32::from_be_bytes(array(client));
    let version = u64::from_be_bytes(array(version));
    if client == 0 || version == 0 {
        return Err("no record is of client 0 or version 0".into());
    }
    let payload = bytes_of(alloc, payload)?;
    let record = write_record(alloc, &BlockId(array(id)), client, version, &payload)?;
    hex_of(alloc, &record)
}

/// The head of a record that begins so: its id, its client and its version; or how long heads and all that isn't payload are.
pub(crate) fn head(alloc: Global, front: &str) -> Result<String, Fail> {
    if front == "sizes" {
        return Ok(format!(in alloc; "{HEAD_LEN} {OVERHEAD}")?);
    }
    let front = bytes_of(alloc, front)?;
    match read_head(&front) {
        Some(head) => {
            let id = hex_of(alloc, &head.id.0)?;
            Ok(format!(in alloc; "{id} {} {}", head.client, head.version)?)
        }
        None => say(alloc, "none"),
    }
}

/// The word for why there is no payload.
fn word_of(why: &Why) -> &'static str {
    match why {
        Why::Missing => "missing",
        Why::BadLength => "bad-length",
        Why::BadPrefix => "bad-prefix",
        Why::OldFormat => "old-format",
        Why::NotOpened => "not-opened",
        Why::BadRecord => "bad-record",
        Why::WrongId(_) => "wrong-id",
        Why::ForeignClient(_) => "foreign-client",
        Why::OldVersion { .. } => "old-version",
        Why::AheadVersion { .. } => "ahead-version",
        Why::Structure => "structure",
    }
}

/// Why there is no payload, with the numbers that this has.
fn said(alloc: Global, why: &Why) -> Result<String, Fail> {
    let word = word_of(why);
    match why {
        Why::WrongId(id) => {
            let digits = hex_of(alloc, &id.0)?;
            Ok(format!(in alloc; "{word} {digits}")?)
        }
        Why::ForeignClient(client) => Ok(format!(in alloc; "{word} {client}")?),
        Why::OldVersion { known, found } | Why::AheadVersion { known, found } => {
            Ok(format!(in alloc; "{word} {known} {found}")?)
        }
        _ => say(alloc, word),
    }
}

/// What was seen: why there is no record, or the bytes of one.
fn seen(alloc: Global, what: &str) -> Result<Seen, Fail> {
    Ok(match what {
        "absent" => Seen::Absent,
        "bad-length" => Seen::BadLength,
        "bad-prefix" => Seen::BadPrefix,
        "old-format" => Seen::OldFormat,
        "not-opened" => Seen::NotOpened,
        _ => Seen::Plain(bytes_of(alloc, what)?),
    })
}

/// What a client says: the payload, or why it takes none.
pub(crate) fn judged(alloc: Global, what: &str) -> Result<String, Fail> {
    match judge(&ID, 7, 2, seen(alloc, what)?) {
        Ok(payload) => {
            let digits = hex_of(alloc, &payload)?;
            Ok(format!(in alloc; "payload {digits}")?)
        }
        Err(why) => said(alloc, &why),
    }
}

/// A front is judged as its record, and one without a head is no record.
const RECORDS: &str =
    "record 30313233343536373839616263646566 01020304 1122334455667788 74657874 = 01003031323334353637383961626364656604030201887766554433221174657874
record-head 0100+30313233343536373839616263646566+04030201+8877665544332211+74657874 = 30313233343536373839616263646566 16909060 1234605616436508552
record-head 0100+30313233343536373839616263646566+04030201+8877665544332211 = 30313233343536373839616263646566 16909060 1234605616436508552
record-head 0100+30313233343536373839616263646566+04030201+88776655443322 = none
record-head - = none
record-head sizes = 30 78
judge 0100+01*16+07000000+0200000000000000+09*50 = payload 0909090909090909090909090909090909090909090909090909090909090909090909090909090909090909090909090909
judge 0200+01*16+07000000+0200000000000000+09*50 = bad-record
judge 0100+01*16+00000000+0200000000000000+09*50 = bad-record
judge 0100+01*16+07000000+0000000000000000+09*50 = bad-record
judge 0100+05*16+08000000+0100000000000000+09*50 = wrong-id 05050505050505050505050505050505
judge 0100+01*16+08000000+0100000000000000+09*50 = foreign-client 8
judge 0100+01*16+07000000+0100000000000000+09*50 = old-version 2 1
judge 0100+01*16+07000000+0300000000000000+09*50 = ahead-version 2 3
judge 0100+01*16+07000000+0100000000000000 = old-version 2 1
judge 0100+01*16+07000000+02000000000000 = bad-record
judge 0100+01*16+07000000+0200000000000000+090909 = payload 090909
judge absent = missing
judge bad-length = bad-length
judge bad-prefix = bad-prefix
judge old-format = old-format
judge not-opened = not-opened";

#[test]
fn records_are_written_and_judged(rt: HostRuntime) -> Result<(), Fail> {
    tell(&rt, RECORDS)
}
