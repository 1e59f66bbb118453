// What a client says of versions that come for blocks, and what its record notes of other clients.
use crate::rows::tell;
use crate::words::{array, hex_of, say};
use block_id::BlockId;
use clients_core::{Seen, Stale, TakeFail, Triple, WorldStep, world};
use local_state::Known;
use shared_records::encode_others;
use std::alloc::Global;
use std::test::Fail;

/// A version by an id of sixteen such bytes, its client and its number, as `01:2:5`.
fn triple_of(word: &str) -> Triple {
    let (digits, rest) = word.split_once(':').unwrap_or((word, ""));
    let (client, version) = rest.split_once(':').unwrap_or((rest, ""));
    let [byte] = array::<1>(digits);
    Triple {
        id: BlockId([byte; 16]),
        client: client.parse().unwrap_or(0),
        version: version.parse().unwrap_or(0),
    }
}

/// The versions that these words are. `-` says none.
fn triples_of(alloc: Global, words: &str) -> Result<Vec<Triple>, Fail> {
    let mut triples = Vec::new(alloc);
    for word in words.split(' ') {
        if word != "-" {
            triples.push(triple_of(word))?;
        }
    }
    Ok(triples)
}

/// What is wrong with a version.
fn stale_text(alloc: Global, stale: &Stale) -> Result<String, Fail> {
    match stale {
        Stale::Lower { known, found } => Ok(format!(in alloc; "{found} is below {known}")?),
        Stale::Ahead { known, found } => Ok(format!(in alloc; "{found} is above {known}")?),
        Stale::Replaced { client, version } => {
            Ok(format!(in alloc; "client {client} sealed {version}")?)
        }
        Stale::Deleted => say(alloc, "deleted"),
    }
}

/// What taking a version comes to.
fn taken(alloc: Global, seen: &mut Seen, t: &Triple) -> Result<String, Fail> {
    if t.client == 0 || t.version == 0 || t.id.0 == [0; 16] {
        return say(alloc, "no version");
    }
    match seen.take(t) {
        Ok(None) => say(alloc, "own"),
        Ok(Some(version)) => Ok(format!(in alloc; "sealed as {version}")?),
        Err(TakeFail::Memory) => say(alloc, "memory"),
        Err(TakeFail::Spent) => say(alloc, "spent"),
        Err(TakeFail::Stale(stale)) => stale_text(alloc, &stale),
    }
}

/// The lives of these blocks: each is put at its number, and dies where its client is 0.
fn lives_of(alloc: Global, words: &str) -> Result<Known, Fail> {
    let mut known = Known::new(alloc);
    let lives = triples_of(alloc, words)?;
    for t in &lives {
        known.reserve(1)?;
        if t.version > 0 && t.id.0 != [0; 16] {
            known.put(&t.id, t.version, t.client > 0);
        }
    }
    Ok(known)
}

/// A client by its number, the lives of its blocks and what is noted of others, with a bar between.
fn seen_of(alloc: Global, words: &str) -> Result<Seen, Fail> {
    let (own, rest) = words.split_once(" | ").unwrap_or((words, ""));
    let (lives, others) = rest.split_once(" | ").unwrap_or((rest, ""));
    let known = lives_of(alloc, lives)?;
    let noted = triples_of(alloc, others)?;
    Ok(Seen::of(alloc, own.parse().unwrap_or(0), known, &noted)?)
}

/// What each of these versions comes to, and the versions of others that are noted then.
pub(crate) fn answer(alloc: Global, word: &str, rest: &str) -> Result<String, Fail> {
    let (client, offered) = rest.split_once(" > ").unwrap_or((rest, "-"));
    let mut seen = seen_of(alloc, client)?;
    let mut told = String::new(alloc);
    let offered = triples_of(alloc, offered)?;
    for t in &offered {
        if !told.is_empty() {
            told.push_str(", ")?;
        }
        told.push_str(&taken(alloc, &mut seen, t)?)?;
    }
    if word == "seen" {
        return Ok(told);
    }
    let (_, others) = seen.into_parts(alloc)?;
    hex_of(alloc, &encode_others(alloc, &others)?)
}

/// A client, the lives of its blocks, the versions of others that it noted, and versions that come.
const SEEN: &str =
    "seen 2 | - | - > 01:1:5 01:1:5 01:1:4 01:2:2 01:2:1 01:3:1 01:2:1 = sealed as 1, client 2 sealed 1, 4 is below 5, 2 is above 1, own, sealed as 2, 1 is below 2
seen 2 | 01:1:3 02:0:4 | 01:1:5 03:1:1 > 01:2:3 02:2:4 02:2:3 02:1:1 01:1:5 03:1:1 = own, deleted, 3 is below 4, sealed as 5, client 2 sealed 3, client 2 sealed 0
seen 7 | 01:1:18446744073709551615 | - > 01:1:1 01:7:18446744073709551615 = spent, own
noted 2 | - | - > 02:1:7 01:3:1 01:1:5 01:2:3 01:1:6 = 0300000000000000010101010101010101010101010101010100000006000000000000000101010101010101010101010101010103000000010000000000000002020202020202020202020202020202010000000700000000000000
noted 2 | - | 01:1:5 01:3:9 = 02000000000000000101010101010101010101010101010101000000050000000000000001010101010101010101010101010101030000000900000000000000
noted 2 | - | - = 0000000000000000";

#[test]
fn versions_are_taken_once(rt: HostRuntime) -> Result<(), Fail> {
    tell(&rt, SEEN)
}

#[test]
fn no_client_takes_what_was_overtaken(rt: HostRuntime) -> Result<(), Fail> {
    let id = BlockId([1; 16]);
    let t = Triple {
        id,
        client: 1,
        version: 1,
    };
    let steps = [
        WorldStep::Seal { client: 1, id },
        WorldStep::Offer {
            client: 2,
            triple: t,
        },
        WorldStep::Offer {
            client: 2,
            triple: t,
        },
    ];
    let answers = world(rt.alloc(), 2, &steps)?;
    assert_eq!(rt; answers.as_slice(), [true, true, false].as_slice());
    Ok(())
}
