// Opening sealed texts by their front.

use crate::rows::tell;
use crate::words::{number, say, some_bytes, words_of};
use aes_gcm::Aes256Gcm;
use seal_api::Sealer;
use std::alloc::Global;
use std::test::Fail;

const KEY: [u8; 32] = *b"thirty-two bytes that are no key";

const EXTRA: [u8; 16] = [7; 16];

/// A plaintext, sealed.
fn sealed_text(alloc: Global, plain: &[u8]) -> Result<Vec<u8>, Fail> {
    if plain.len() > 1000 {
        return Err("a long plaintext".into());
    }
    let mut sealed = Vec::new(alloc);
    Aes256Gcm.seal_with(&KEY, &[9; 16], &EXTRA, plain, &mut sealed)?;
    Ok(sealed)
}

fn front(alloc: Global, extra: &[u8], sealed: &[u8], most: usize) -> Result<Option<Vec<u8>>, Fail> {
    Ok(Aes256Gcm.unseal_front(alloc, &KEY, extra, sealed, most)?)
}

/// Whether so many bytes that are asked for are the plaintext's first.
fn gives(alloc: Global, plain: &[u8], sealed: &[u8], most: usize) -> Result<bool, Fail> {
    let (first, _) = plain.split_at(most.min(plain.len()));
    Ok(match front(alloc, &EXTRA, sealed, most)? {
        Some(front) => front.as_slice() == first,
        None => false,
    })
}

/// Whether the front stays shut where one bit is changed, so many bytes from the end.
fn sees_a_change(alloc: Global, sealed: &[u8], back: usize, most: usize) -> Result<bool, Fail> {
    let mut text = sealed.to_vec(alloc)?;
    let place = text.len().wrapping_sub(back);
    match text.get_mut(place) {
        Some(byte) => *byte ^= 1,
        None => return Ok(false),
    }
    Ok(front(alloc, &EXTRA, &text, most)?.is_none())
}

/// Whether the front is given, and stays shut with other extra bytes and where a byte is changed that stands behind it: the two
/// ends of the tag, and the one before it.
fn is_so(alloc: Global, plain: &[u8], sealed: &[u8], most: usize) -> Result<bool, Fail> {
    Ok(
        gives(alloc, plain, sealed, most)?
            && front(alloc, &[8; 16], sealed, most)?.is_none()
            && sees_a_change(alloc, sealed, 1, most)?
            && sees_a_change(alloc, sealed, 16, most)?
            && sees_a_change(alloc, sealed, 17, most)?,
    )
}

/// Asks for so many bytes of a plaintext of so many. Of how many bytes that are sealed they are the front, if they are.
pub(crate) fn answer(alloc: Global, rest: &str) -> Result<String, Fail> {
    let [most, _, len, ..] = words_of(rest);
    let plain = some_bytes(alloc, number(len))?;
    let sealed = sealed_text(alloc, &plain)?;
    if is_so(alloc, &plain, &sealed, number(most))? {
        Ok(format!(in alloc; "the front of {} bytes", sealed.len())?)
    } else {
        say(alloc, "another front, or it opens with a change")
    }
}

const FRONTS: &str = "front 0 of 0 = the front of 32 bytes
front 1 of 0 = the front of 32 bytes
front 8 of 0 = the front of 32 bytes
front 16 of 0 = the front of 32 bytes
front 38 of 0 = the front of 32 bytes
front 113 of 0 = the front of 32 bytes
front 5000 of 0 = the front of 32 bytes
front 0 of 1 = the front of 33 bytes
front 1 of 1 = the front of 33 bytes
front 8 of 1 = the front of 33 bytes
front 16 of 1 = the front of 33 bytes
front 38 of 1 = the front of 33 bytes
front 113 of 1 = the front of 33 bytes
front 5000 of 1 = the front of 33 bytes
front 0 of 15 = the front of 47 bytes
front 1 of 15 = the front of 47 bytes
front 8 of 15 = the front of 47 bytes
front 16 of 15 = the front of 47 bytes
front 38 of 15 = the front of 47 bytes
front 113 of 15 = the front of 47 bytes
front 5000 of 15 = the front of 47 bytes
front 0 of 16 = the front of 48 bytes
front 1 of 16 = the front of 48 bytes
front 8 of 16 = the front of 48 bytes
front 16 of 16 = the front of 48 bytes
front 38 of 16 = the front of 48 bytes
front 113 of 16 = the front of 48 bytes
front 5000 of 16 = the front of 48 bytes
front 0 of 17 = the front of 49 bytes
front 1 of 17 = the front of 49 bytes
front 8 of 17 = the front of 49 bytes
front 16 of 17 = the front of 49 bytes
front 38 of 17 = the front of 49 bytes
front 113 of 17 = the front of 49 bytes
front 5000 of 17 = the front of 49 bytes
front 0 of 112 = the front of 144 bytes
front 1 of 112 = the front of 144 bytes
front 8 of 112 = the front of 144 bytes
front 16 of 112 = the front of 144 bytes
front 38 of 112 = the front of 144 bytes
front 113 of 112 = the front of 144 bytes
front 5000 of 112 = the front of 144 bytes
front 0 of 113 = the front of 145 bytes
front 1 of 113 = the front of 145 bytes
front 8 of 113 = the front of 145 bytes
front 16 of 113 = the front of 145 bytes
front 38 of 113 = the front of 145 bytes
front 113 of 113 = the front of 145 bytes
front 5000 of 113 = the front of 145 bytes
front 0 of 128 = the front of 160 bytes
front 1 of 128 = the front of 160 bytes
front 8 of 128 = the front of 160 bytes
front 16 of 128 = the front of 160 bytes
front 38 of 128 = the front of 160 bytes
front 113 of 128 = the front of 160 bytes
front 5000 of 128 = the front of 160 bytes
front 0 of 129 = the front of 161 bytes
front 1 of 129 = the front of 161 bytes
front 8 of 129 = the front of 161 bytes
front 16 of 129 = the front of 161 bytes
front 38 of 129 = the front of 161 bytes
front 113 of 129 = the front of 161 bytes
front 5000 of 129 = the front of 161 bytes
front 0 of 1000 = the front of 1032 bytes
front 1 of 1000 = the front of 1032 bytes
front 8 of 1000 = the front of 1032 bytes
front 16 of 1000 = the front of 1032 bytes
front 38 of 1000 = the front of 1032 bytes
front 113 of 1000 = the front of 1032 bytes
front 5000 of 1000 = the front of 1032 bytes";

#[test]
fn fronts_are_given_and_changes_seen(rt: HostRuntime) -> Result<(), Fail> {
    tell(&rt, FRONTS)
}
