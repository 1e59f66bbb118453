// JSON texts in files that are sealed here as the formats say, part by part, with zeros for the salt, the IVs and the fill.

use crate::configurations::{PASSWORD, opened};
use crate::gcm::{Case, sealed};
use crate::key_derivation::derived;
use crate::rows::tell;
use crate::words::number;
use scrypt_kdf::Params;
use std::alloc::Global;
use std::test::Fail;

/// The text of the configuration.
const RIGHT: &str =
    r#"{"blocksizeBytes":16384,"cipher":"aes-256-gcm","filesystemId":"101112131415161718191A1B1C1D1E1F","key":"808182838485868788898A8B8C8D8E8F909192939495969798999A9B9C9D9E9F","rootblob":"F0F1F2F3F4F5F6F7F8F9FAFBFCFDFEFF"}"#;

/// The front of a file under N = 2, r = 1 and p = 1. The salt stands behind it.
const OUTER: &str = "cryfs.config;1;scrypt\0\x02\0\0\0\0\0\0\0\x01\0\0\0\x01\0\0\0";

const SALT: [u8; 32] = [0; 32];

fn append_sealed(
    alloc: Global,
    key: &[u8; 32],
    plain: &[u8],
    out: &mut Vec<u8>,
) -> Result<(), Fail> {
    let iv = [0; 16];
    let case = Case {
        key,
        iv: &iv,
        extra: &[],
        plain,
    };
    let (text, tag) = sealed(alloc, &case)?;
    out.extend_from_slice(&iv)?;
    out.extend_from_slice(&text)?;
    out.extend_from_slice(&tag)?;
    Ok(())
}

/// What is sealed innermost: the text with its length, and zeros up to 900 bytes.
fn innermost_of(alloc: Global, json: &[u8]) -> Result<Vec<u8>, Fail> {
    let len = u32::try_from(json.len())?.to_le_bytes();
    let mut innermost = len.to_vec(alloc)?;
    innermost.extend_from_slice(json)?;
    innermost.resize(900, 0)?;
    Ok(innermost)
}

fn inner_of(alloc: Global, key: &[u8; 32], json: &[u8]) -> Result<Vec<u8>, Fail> {
    let mut inner = b"cryfs.config.inner;0\0aes-256-gcm\0".to_vec(alloc)?;
    let innermost = innermost_of(alloc, json)?;
    append_sealed(alloc, key, &innermost, &mut inner)?;
    inner.resize(1024, 0)?;
    Ok(inner)
}

/// The keys of the outer and of the inner seal.
fn halves(derived: &[u8; 64]) -> ([u8; 32], [u8; 32]) {
    let mut outer = [0; 32];
    let mut inner = [0; 32];
    outer.copy_from_slice(&derived[..32]);
    inner.copy_from_slice(&derived[32..]);
    (outer, inner)
}

/// The file that holds this text.
fn file_of(alloc: Global, json: &[u8]) -> Result<Vec<u8>, Fail> {
    let params = Params::new(2, 1, 1)?;
    let (outer_key, inner_key) = halves(&derived(alloc, PASSWORD, &SALT, &params)?);
    let inner = inner_of(alloc, &inner_key, json)?;
    let mut file = OUTER.as_bytes().to_vec(alloc)?;
    file.extend_from_slice(&SALT)?;
    append_sealed(alloc, &outer_key, &inner, &mut file)?;
    Ok(file)
}

/// A text in which `|` stands for an end of line, `~` for a tabulator and `_` for a space.
fn append_plain(json: &mut Vec<u8>, text: &str) -> Result<(), Fail> {
    for byte in text.bytes() {
        json.push(match byte {
            b'|' => b'\n',
            b'~' => b'\t',
            b'_' => b' ',
            _ => byte,
        })?;
    }
    Ok(())
}

/// The right text with another part, `16384 -> 127`, or this text.
fn json_of(alloc: Global, text: &str) -> Result<Vec<u8>, Fail> {
    let (part, other) = text.split_once(" -> ").unwrap_or((RIGHT, text));
    let (front, end) = RIGHT.split_once(part).ok_or("no part of the right text")?;
    let mut json = Vec::new(alloc);
    for piece in [front, other, end] {
        append_plain(&mut json, piece)?;
    }
    Ok(json)
}

/// Opens the file that holds a text, or the right one with spaces up to so many bytes.
pub(crate) fn opened_text(alloc: Global, word: &str, text: &str) -> Result<String, Fail> {
    let mut json = json_of(alloc, if word == "json" { text } else { RIGHT })?;
    if word == "json-filled" {
        json.resize(number(text), b' ')?;
    }
    let file = file_of(alloc, &json)?;
    opened(alloc, PASSWORD, &file)
}

/// The same configuration with members that aren't known or come twice, white space, and digits of either case; then texts of
/// no configuration, most of them the right text with another part.
const TEXTS: &str =
    r#"json {"blocksizeBytes":16384,"cipher":"aes-256-gcm","filesystemId":"101112131415161718191A1B1C1D1E1F","key":"808182838485868788898A8B8C8D8E8F909192939495969798999A9B9C9D9E9F","rootblob":"F0F1F2F3F4F5F6F7F8F9FAFBFCFDFEFF"} = the configuration under 2 1 1
json {"blocksizeBytes": 16384 ,"cipher":"aes-256-gcm","filesystemId":"101112131415161718191a1b1c1d1e1f","key":"808182838485868788898a8b8c8d8e8f909192939495969798999A9B9C9D9E9F","rootblob":"f0f1f2f3f4f5f6f7f8f9fafbfcfdfeff"} = the configuration under 2 1 1
json {"blocksizeBytes":0,"blocksizeBytes":16384,"cipher":"aes-256-gcm","filesystemId":"101112131415161718191a1b1c1d1e1f","key":"808182838485868788898a8b8c8d8e8f909192939495969798999A9B9C9D9E9F","rootblob":"f0f1f2f3f4f5f6f7f8f9fafbfcfdfeff"} = the configuration under 2 1 1
json {"blocksizeBytes":16384,"other":[1,{"key":null}],"cipher":"aes-256-gcm","filesystemId":"101112131415161718191a1b1c1d1e1f","key":"808182838485868788898a8b8c8d8e8f909192939495969798999A9B9C9D9E9F","rootblob":"f0f1f2f3f4f5f6f7f8f9fafbfcfdfeff"} = the configuration under 2 1 1
json {"blocksizeBytes":16384,|~"exclusiveClientId":"\u0041","cipher":"aes-256-gcm","filesystemId":"101112131415161718191a1b1c1d1e1f","key":"808182838485868788898a8b8c8d8e8f909192939495969798999A9B9C9D9E9F","rootblob":"f0f1f2f3f4f5f6f7f8f9fafbfcfdfeff"} = the configuration under 2 1 1
json-filled 896 = the configuration under 2 1 1
json 16384 -> 127 = inner
json 16384 -> 1048577 = inner
json 16384 -> 0 = inner
json 16384 -> -16384 = inner
json 16384 -> 16384.0 = inner
json 16384 -> 1.6384e4 = inner
json 16384 -> "16384" = inner
json 16384 -> null = inner
json "aes-256-gcm" -> "aes-256-cbc" = inner
json "aes-256-gcm" -> "AES-256-GCM" = inner
json "aes-256-gcm" -> "aes-256-gcm\u0000" = inner
json "aes-256-gcm" -> "" = inner
json "aes-256-gcm" -> 256 = inner
json "101112131415161718191A1B1C1D1E1F" -> "101112131415161718191A1B1C1D1E" = inner
json "101112131415161718191A1B1C1D1E1F" -> "101112131415161718191A1B1C1D1E1F20" = inner
json "101112131415161718191A1B1C1D1E1F" -> "101112131415161718191A1B1C1D1E1G" = inner
json "101112131415161718191A1B1C1D1E1F" -> "101112131415161718191A1B1C1D1E1F " = inner
json "101112131415161718191A1B1C1D1E1F" -> "" = inner
json "101112131415161718191A1B1C1D1E1F" -> [] = inner
json "101112131415161718191A1B1C1D1E1F" -> "808182838485868788898A8B8C8D8E8F909192939495969798999A9B9C9D9E9F" = inner
json "F0F1F2F3F4F5F6F7F8F9FAFBFCFDFEFF" -> "101112131415161718191A1B1C1D1E" = inner
json "F0F1F2F3F4F5F6F7F8F9FAFBFCFDFEFF" -> "101112131415161718191A1B1C1D1E1F20" = inner
json "F0F1F2F3F4F5F6F7F8F9FAFBFCFDFEFF" -> "101112131415161718191A1B1C1D1E1G" = inner
json "F0F1F2F3F4F5F6F7F8F9FAFBFCFDFEFF" -> "101112131415161718191A1B1C1D1E1F " = inner
json "F0F1F2F3F4F5F6F7F8F9FAFBFCFDFEFF" -> "" = inner
json "F0F1F2F3F4F5F6F7F8F9FAFBFCFDFEFF" -> [] = inner
json "F0F1F2F3F4F5F6F7F8F9FAFBFCFDFEFF" -> "808182838485868788898A8B8C8D8E8F909192939495969798999A9B9C9D9E9F" = inner
json "808182838485868788898A8B8C8D8E8F909192939495969798999A9B9C9D9E9F" -> "F0F1F2F3F4F5F6F7F8F9FAFBFCFDFEFF" = inner
json {"blocksizeBytes":16384,"cipher":"aes-256-gcm","filesystemId":"101112131415161718191A1B1C1D1E1F","key":"808182838485868788898A8B8C8D8E8F909192939495969798999A9B9C9D9E9F","rootblob":"F0F1F2F3F4F5F6F7F8F9FAFBFCFDFEFF"}{} = inner
json = inner
json _ = inner
json { = inner
json {} = inner
json [] = inner
json null = inner
json 16384 = inner
json "aes-256-gcm" = inner
json {"blocksizeBytes":16384} = inner
json-filled 897 = inner"#;

#[test]
fn texts_open_or_not(rt: HostRuntime) -> Result<(), Fail> {
    tell(&rt, TEXTS)
}
