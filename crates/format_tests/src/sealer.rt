// The sealer that GCM makes, on a vector with no extra bytes.

use crate::rows::tell;
use crate::words::{array, bytes_of, hex_of, say, words_of};
use aes_gcm::Aes256Gcm;
use seal_api::Sealer;
use std::alloc::Global;
use std::test::Fail;

/// Seals a plaintext of few bytes.
fn sealed(alloc: Global, key: &[u8; 32], iv: &[u8], plain: &[u8]) -> Result<Vec<u8>, Fail> {
    if iv.len() != 16 || plain.len() > 1000 || Aes256Gcm.iv_len() != 16 {
        return Err("an IV of 16 bytes and a short plaintext".into());
    }
    let mut sealed = Vec::new(alloc);
    Aes256Gcm.seal(key, iv, plain, &mut sealed)?;
    Ok(sealed)
}

/// Seals it where it stands, between room for the IV and for the tag.
fn sealed_there(alloc: Global, key: &[u8; 32], iv: &[u8], plain: &[u8]) -> Result<Vec<u8>, Fail> {
    let mut text = [1; 16].to_vec(alloc)?;
    text.extend_from_slice(plain)?;
    text.extend_from_slice(&[1; 16])?;
    if iv.len() != 16 || text.len() != 65 {
        return Err("an IV of 16 bytes and a plaintext of 33".into());
    }
    Aes256Gcm.seal_in_place(key, iv, &[], &mut text);
    Ok(text)
}

fn opened(alloc: Global, key: &[u8; 32], text: &[u8]) -> Result<Option<Vec<u8>>, Fail> {
    Ok(Aes256Gcm.unseal(alloc, key, text)?)
}

/// Whether a sealed text opens to the plaintext, and stays shut without its first byte, and so does a text that is too short.
fn opens(alloc: Global, key: &[u8; 32], sealed: &[u8], plain: &[u8]) -> Result<bool, Fail> {
    let rest = sealed.get(1..).unwrap_or(sealed);
    if opened(alloc, key, rest)?.is_some() || opened(alloc, key, &[0; 31])?.is_some() {
        return Ok(false);
    }
    Ok(match opened(alloc, key, sealed)? {
        Some(found) => found.as_slice() == plain,
        None => false,
    })
}

/// What a plaintext is sealed to under a key and an IV, in new memory and where it stands.
fn answer_of(alloc: Global, key: &[u8; 32], iv: &[u8], plain: &[u8]) -> Result<String, Fail> {
    let sealed = sealed(alloc, key, iv, plain)?;
    let there = sealed_there(alloc, key, iv, plain)?;
    if there.as_slice() != sealed.as_slice() {
        return say(alloc, "another text where it stands");
    }
    if opens(alloc, key, &sealed, plain)? {
        hex_of(alloc, &sealed)
    } else {
        say(alloc, "it doesn't open as it was sealed")
    }
}

/// Seals under a key and an IV a plaintext.
pub(crate) fn answer(alloc: Global, rest: &str) -> Result<String, Fail> {
    let [key, iv, plain, ..] = words_of(rest);
    let iv = bytes_of(alloc, iv)?;
    let plain = bytes_of(alloc, plain)?;
    answer_of(alloc, &array(key), &iv, &plain)
}

/// The eighth vector of `gcm`: the sealed text is the IV, the ciphertext and the tag.
const SEALED: &str =
    "sealer 000102030405060708090a0b0c0d0e0f101112131415161718191a1b1c1d1e1f 202122232425262728292a2b2c2d2e2f 404142434445464748494a4b4c4d4e4f505152535455565758595a5b5c5d5e5f60 = 202122232425262728292a2b2c2d2e2f8b8de6a558c45fa8f64a44e0497eb0d1cc9c30b584b146933d78de6f63e7aab00703988db7a29122015e1b5d4de5f298db";

#[test]
fn the_sealer_meets_a_vector(rt: HostRuntime) -> Result<(), Fail> {
    tell(&rt, SEALED)
}
