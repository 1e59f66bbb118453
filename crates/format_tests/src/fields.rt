// Numbers with their bytes written out, at their limits too, and too few bytes.

use crate::rows::tell;
use crate::words::{array, bytes_of, hex_of, number, say, two_of, words_of};
use block_id::BlockId;
use byte_fields::{
    id_of, put_id, put_u16, put_u32, put_u64, take_array, take_bytes, take_id, take_u16, take_u32,
    take_u64, u16_of, u32_of, u64_of,
};
use std::alloc::Global;
use std::test::Fail;

/// An id and three numbers, one behind another.
pub(crate) fn put(alloc: Global, rest: &str) -> Result<String, Fail> {
    let [id, two, four, eight, ..] = words_of(rest);
    let mut out = Vec::new(alloc);
    put_id(&mut out, &BlockId(array(id)))?;
    put_u16(&mut out, u16::from_be_bytes(array(two)))?;
    put_u32(&mut out, u32::from_be_bytes(array(four)))?;
    put_u64(&mut out, u64::from_be_bytes(array(eight)))?;
    hex_of(alloc, &out)
}

/// What is taken from the front of these bytes, and what is left.
fn taken_from(alloc: Global, what: &str, bytes: &[u8]) -> Result<String, Fail> {
    match what {
        "u16" => {
            if let Some((number, left)) = take_u16(bytes) {
                return two_of(alloc, &number.to_be_bytes(), left);
            }
        }
        "u32" => {
            if let Some((number, left)) = take_u32(bytes) {
                return two_of(alloc, &number.to_be_bytes(), left);
            }
        }
        "u64" => {
            if let Some((number, left)) = take_u64(bytes) {
                return two_of(alloc, &number.to_be_bytes(), left);
            }
        }
        "id" => {
            if let Some((id, left)) = take_id(bytes) {
                return two_of(alloc, &id.0, left);
            }
        }
        "array-of-2" => {
            if let Some(taken) = take_array::<2>(bytes) {
                let two = taken.0;
                return two_of(alloc, &two, taken.1);
            }
        }
        "array-of-3" => {
            if let Some(taken) = take_array::<3>(bytes) {
                let three = taken.0;
                return two_of(alloc, &three, taken.1);
            }
        }
        _ => {
            if let Some((front, left)) = take_bytes(bytes, number(what)) {
                return two_of(alloc, front, left);
            }
        }
    }
    say(alloc, "none")
}

/// What is taken: a number, an id, an array or so many bytes.
pub(crate) fn taken(alloc: Global, rest: &str) -> Result<String, Fail> {
    let [what, digits, ..] = words_of(rest);
    let bytes = bytes_of(alloc, digits)?;
    taken_from(alloc, what, &bytes)
}

/// The number or the id of all these bytes.
pub(crate) fn number_of(alloc: Global, rest: &str) -> Result<String, Fail> {
    let [what, digits, ..] = words_of(rest);
    match what {
        "u16" => hex_of(alloc, &u16_of(&array::<2>(digits)).to_be_bytes()),
        "u32" => hex_of(alloc, &u32_of(&array::<4>(digits)).to_be_bytes()),
        "u64" => hex_of(alloc, &u64_of(&array::<8>(digits)).to_be_bytes()),
        _ => hex_of(alloc, &id_of(&array::<16>(digits)).0),
    }
}

/// Numbers stand in questions and answers with their high byte first, and in the bytes of fields with their low byte first.
const FIELDS: &str =
    "put 00000000000000000000000000000000 0102 01020304 0102030405060708 = 000000000000000000000000000000000201040302010807060504030201
put 00000000000000000000000000000000 ffff ffffffff ffffffffffffffff = 00000000000000000000000000000000ffffffffffffffffffffffffffff
put 30313233343536373839616263646566 0001 00000000 0000000000000000 = 303132333435363738396162636465660100000000000000000000000000
take u16 0201040302010807060504030201 = 0102|040302010807060504030201
take u32 040302010807060504030201 = 01020304|0807060504030201
take u64 0807060504030201 = 0102030405060708|
take u16 01 = none
take u32 010203 = none
take u64 01020304050607 = none
take id 000000000000000000000000000000 = none
take array-of-3 0102 = none
take 3 0102 = none
take array-of-2 010203 = 0102|03
take 2 010203 = 0102|03
take id 303132333435363738396162636465660100 = 30313233343536373839616263646566|0100
of u16 0201 = 0102
of u32 04030201 = 01020304
of u64 0807060504030201 = 0102030405060708
of u64 ffffffffffffffff = ffffffffffffffff
of u64 0100000000000000 = 0000000000000001
of id 30313233343536373839616263646566 = 30313233343536373839616263646566";

#[test]
fn fields_have_their_low_byte_first(rt: HostRuntime) -> Result<(), Fail> {
    tell(&rt, FIELDS)
}
