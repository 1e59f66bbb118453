// Names of ids, and the id after.

use crate::rows::tell;
use crate::words::{array, hex_of, say};
use block_id::BlockId;
use std::alloc::Global;
use std::test::Fail;

/// The name of an id, the id after it, or the id that a text names.
pub(crate) fn answer(alloc: Global, word: &str, text: &str) -> Result<String, Fail> {
    match word {
        "name-of" => say(
            alloc,
            str::from_utf8(&BlockId(array(text)).to_name()).unwrap_or(""),
        ),
        "id-after" => hex_of(alloc, &BlockId(array(text)).next().0),
        _ => match BlockId::from_name(text.as_bytes()) {
            Some(id) => hex_of(alloc, &id.0),
            None => say(alloc, "none"),
        },
    }
}

const IDS: &str = "name-of 00112233445566778899aabbccddeeff = 00112233445566778899AABBCCDDEEFF
id-of 00112233445566778899AABBCCDDEEFF = 00112233445566778899aabbccddeeff
id-of 00112233445566778899aabbccddEEff = 00112233445566778899aabbccddeeff
id-of 0112233445566778899AABBCCDDEEFF = none
id-of 000112233445566778899AABBCCDDEEFF = none
id-of 00112233445566778899AABBCCDDEEFG = none
id-of = none
id-after ffffffffffffffffffffffffffffffff = 00000000000000000000000000000000
id-after 00ffffffffffffffffffffffffffffff = 01000000000000000000000000000000";

#[test]
fn ids_have_names_and_successors(rt: HostRuntime) -> Result<(), Fail> {
    tell(&rt, IDS)
}
