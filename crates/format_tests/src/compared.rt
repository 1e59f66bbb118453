// Sealing and opening, compared with the plain bodies at many lengths.

use crate::gcm::{Case, opens, sealed};
use crate::plain::plain_seal;
use crate::rows::tell;
use crate::words::{number, say, some_bytes, words_of};
use aes_block::KeySchedule;
use std::alloc::Global;
use std::test::Fail;

const KEY: [u8; 32] = *b"thirty-two bytes that are no key";

/// What the plain bodies seal it to.
fn plainly_sealed(alloc: Global, case: &Case<'_>) -> Result<(Vec<u8>, [u8; 16]), Fail> {
    let keys = KeySchedule::new(case.key);
    Ok(plain_seal(alloc, &keys, case.iv, case.extra, case.plain)?)
}

/// Whether it is sealed and opened as by the plain bodies, and stays shut where this byte of the tag is changed.
fn is_as_plain(alloc: Global, case: &Case<'_>, place: usize) -> Result<bool, Fail> {
    let (text, tag) = plainly_sealed(alloc, case)?;
    let (same, same_tag) = sealed(alloc, case)?;
    if same.as_slice() != text.as_slice() || same_tag != tag {
        return Ok(false);
    }
    opens(alloc, case, &text, &tag, place)
}

/// A plaintext of this length is sealed and opened as by the plain bodies.
fn compare(alloc: Global, len: usize) -> Result<bool, Fail> {
    let iv = some_bytes(alloc, 12 + len % 5)?;
    let extra = some_bytes(alloc, len % 40)?;
    let plain = some_bytes(alloc, len)?;
    let case = Case {
        key: &KEY,
        iv: &iv,
        extra: &extra,
        plain: &plain,
    };
    is_as_plain(alloc, &case, len % 16)
}

/// Compares at each length from one to another.
pub(crate) fn are_as_plain(alloc: Global, rest: &str) -> Result<String, Fail> {
    let [from, _, to, ..] = words_of(rest);
    for len in number(from)..=number(to) {
        if !compare(alloc, len)? {
            return Err(Fail::new(format_args!("{len} bytes")));
        }
    }
    say(alloc, "the same")
}

const LENGTHS: &str = "as-the-plain-body 0 to 300 = the same
as-the-plain-body 4096 to 4096 = the same
as-the-plain-body 16336 to 16336 = the same
as-the-plain-body 65541 to 65541 = the same";

#[test]
fn seals_as_the_plain_bodies(rt: HostRuntime) -> Result<(), Fail> {
    tell(&rt, LENGTHS)
}
