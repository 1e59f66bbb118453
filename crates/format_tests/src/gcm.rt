// GCM under keys of 32 bytes, against outside vectors.

use crate::rows::tell;
use crate::words::{array, bytes_of, hex_of, number, say, two_of, words_of};
use aes_block::KeySchedule;
use aes_gcm::{gcm_seal, gcm_unseal};
use std::alloc::Global;
use std::test::Fail;

/// What is sealed.
#[derive(Clone, Copy)]
pub(crate) struct Case<'a> {
    pub(crate) key: &'a [u8; 32],
    pub(crate) iv: &'a [u8],
    pub(crate) extra: &'a [u8],
    pub(crate) plain: &'a [u8],
}

/// The ciphertext and the tag.
pub(crate) fn sealed(alloc: Global, case: &Case<'_>) -> Result<(Vec<u8>, [u8; 16]), Fail> {
    if case.iv.is_empty() {
        return Err("no IV".into());
    }
    let keys = KeySchedule::new(case.key);
    let mut text = Vec::new(alloc);
    let tag = gcm_seal(&keys, case.iv, case.extra, case.plain, &mut text)?;
    Ok((text, tag))
}

/// What a ciphertext opens to under a tag.
fn opened(
    alloc: Global,
    case: &Case<'_>,
    text: &[u8],
    tag: &[u8; 16],
) -> Result<Option<Vec<u8>>, Fail> {
    if case.iv.is_empty() {
        return Err("no IV".into());
    }
    let keys = KeySchedule::new(case.key);
    Ok(gcm_unseal(alloc, &keys, case.iv, case.extra, text, tag)?)
}

/// Whether a ciphertext opens to the plaintext, and stays shut under the tag with one bit of this byte changed.
pub(crate) fn opens(
    alloc: Global,
    case: &Case<'_>,
    text: &[u8],
    tag: &[u8; 16],
    place: usize,
) -> Result<bool, Fail> {
    let mut other = *tag;
    if let Some(byte) = other.get_mut(place) {
        *byte ^= 1;
    }
    if opened(alloc, case, text, &other)?.is_some() {
        return Ok(false);
    }
    Ok(match opened(alloc, case, text, tag)? {
        Some(plain) => plain.as_slice() == case.plain,
        None => false,
    })
}

/// The ciphertext and the tag, which open again.
fn answer_of(alloc: Global, case: &Case<'_>) -> Result<String, Fail> {
    let (text, tag) = sealed(alloc, case)?;
    if opens(alloc, case, &text, &tag, 15)? {
        two_of(alloc, &text, &tag)
    } else {
        say(alloc, "it doesn't open as it was sealed")
    }
}

/// Seals under a key and an IV, with extra bytes, a plaintext.
pub(crate) fn answer(alloc: Global, rest: &str) -> Result<String, Fail> {
    let [key, iv, extra, plain, ..] = words_of(rest);
    let iv = bytes_of(alloc, iv)?;
    let extra = bytes_of(alloc, extra)?;
    let plain = bytes_of(alloc, plain)?;
    let case = Case {
        key: &array(key),
        iv: &iv,
        extra: &extra,
        plain: &plain,
    };
    answer_of(alloc, &case)
}

const KEY: [u8; 32] = [
    0, 1, 2, 3, 4, 5, 6, 7, 8, 9, 10, 11, 12, 13, 14, 15, 16, 17, 18, 19, 20, 21, 22, 23, 24, 25,
    26, 27, 28, 29, 30, 31,
];

/// Byte i of the long texts is i * i + 7 * i, modulo 251.
fn squares(alloc: Global, len: usize) -> Result<Vec<u8>, Fail> {
    let mut text = Vec::new(alloc);
    let mut byte: u8 = 0;
    let mut step: u8 = 8;
    for _ in 0..len {
        text.push(byte)?;
        byte = (u16::from(byte).wrapping_add(u16::from(step)) % 251) as u8;
        step = (u16::from(step).wrapping_add(2) % 251) as u8;
    }
    Ok(text)
}

/// The tag of so many such bytes, with twenty extra bytes.
pub(crate) fn tag_of_squares(alloc: Global, len: &str) -> Result<String, Fail> {
    let plain = squares(alloc, number(len))?;
    let case = Case {
        key: &KEY,
        iv: &[
            32, 33, 34, 35, 36, 37, 38, 39, 40, 41, 42, 43, 44, 45, 46, 47,
        ],
        extra: &[1; 20],
        plain: &plain,
    };
    let (text, tag) = sealed(alloc, &case)?;
    if opens(alloc, &case, &text, &tag, 15)? {
        hex_of(alloc, &tag)
    } else {
        say(alloc, "it doesn't open as it was sealed")
    }
}

/// Vectors of GCM: first the six test cases that the mode's authors give, then cases that OpenSSL made. Each has a key, an IV,
/// extra bytes and a plaintext, and then a ciphertext and a tag. The last ones are texts of several turns, by OpenSSL too: how
/// long each is, and its tag.
const VECTORS: &str =
    "gcm 0000000000000000000000000000000000000000000000000000000000000000 000000000000000000000000 - - = |530f8afbc74536b9a963b4f1c4cb738b
gcm 0000000000000000000000000000000000000000000000000000000000000000 000000000000000000000000 - 00000000000000000000000000000000 = cea7403d4d606b6e074ec5d3baf39d18|d0d1c8a799996bf0265b98b5d48ab919
gcm feffe9928665731c6d6a8f9467308308feffe9928665731c6d6a8f9467308308 cafebabefacedbaddecaf888 - d9313225f88406e5a55909c5aff5269a86a7a9531534f7da2e4c303d8a318a721c3c0c95956809532fcf0e2449a6b525b16aedf5aa0de657ba637b391aafd255 = 522dc1f099567d07f47f37a32a84427d643a8cdcbfe5c0c97598a2bd2555d1aa8cb08e48590dbb3da7b08b1056828838c5f61e6393ba7a0abcc9f662898015ad|b094dac5d93471bdec1a502270e3cc6c
gcm feffe9928665731c6d6a8f9467308308feffe9928665731c6d6a8f9467308308 cafebabefacedbaddecaf888 feedfacedeadbeeffeedfacedeadbeefabaddad2 d9313225f88406e5a55909c5aff5269a86a7a9531534f7da2e4c303d8a318a721c3c0c95956809532fcf0e2449a6b525b16aedf5aa0de657ba637b39 = 522dc1f099567d07f47f37a32a84427d643a8cdcbfe5c0c97598a2bd2555d1aa8cb08e48590dbb3da7b08b1056828838c5f61e6393ba7a0abcc9f662|76fc6ece0f4e1768cddf8853bb2d551b
gcm feffe9928665731c6d6a8f9467308308feffe9928665731c6d6a8f9467308308 cafebabefacedbad feedfacedeadbeeffeedfacedeadbeefabaddad2 d9313225f88406e5a55909c5aff5269a86a7a9531534f7da2e4c303d8a318a721c3c0c95956809532fcf0e2449a6b525b16aedf5aa0de657ba637b39 = c3762df1ca787d32ae47c13bf19844cbaf1ae14d0b976afac52ff7d79bba9de0feb582d33934a4f0954cc2363bc73f7862ac430e64abe499f47c9b1f|3a337dbf46a792c45e454913fe2ea8f2
gcm feffe9928665731c6d6a8f9467308308feffe9928665731c6d6a8f9467308308 9313225df88406e555909c5aff5269aa6a7a9538534f7da1e4c303d2a318a728c3c0c95156809539fcf0e2429a6b525416aedbf5a0de6a57a637b39b feedfacedeadbeeffeedfacedeadbeefabaddad2 d9313225f88406e5a55909c5aff5269a86a7a9531534f7da2e4c303d8a318a721c3c0c95956809532fcf0e2449a6b525b16aedf5aa0de657ba637b39 = 5a8def2f0c9e53f1f75d7853659e2a20eeb2b22aafde6419a058ab4f6f746bf40fc0c3b780f244452da3ebf1c5d82cdea2418997200ef82e44ae7e3f|a44a8266ee1c8eb0c8b5d4cf5ae9f19a
gcm 000102030405060708090a0b0c0d0e0f101112131415161718191a1b1c1d1e1f 202122232425262728292a2b2c2d2e2f - - = |328a489784b59cd20f04b3f0f7840c17
gcm 000102030405060708090a0b0c0d0e0f101112131415161718191a1b1c1d1e1f 202122232425262728292a2b2c2d2e2f - 404142434445464748494a4b4c4d4e4f505152535455565758595a5b5c5d5e5f60 = 8b8de6a558c45fa8f64a44e0497eb0d1cc9c30b584b146933d78de6f63e7aab007|03988db7a29122015e1b5d4de5f298db
gcm 000102030405060708090a0b0c0d0e0f101112131415161718191a1b1c1d1e1f 202122232425262728292a2b2c2d2e2f 00 404142434445464748494a4b4c4d4e4f = 8b8de6a558c45fa8f64a44e0497eb0d1|4871602ea4d6fa940aefe22ab6eb6a78
gcm 000102030405060708090a0b0c0d0e0f101112131415161718191a1b1c1d1e1f 303132333435363738 - 61 = 02|c39905576038f607bdd8b47bd5b5ece9
gcm 000102030405060708090a0b0c0d0e0f101112131415161718191a1b1c1d1e1f 808182838485868788898a8b 909192939495969798999a9b9c9d9e9f - = |178478de2e8fe91488e849430975d46a
gcm 000102030405060708090a0b0c0d0e0f101112131415161718191a1b1c1d1e1f 0ae575dff30c60655abffa6d2b8f0710 909192939495969798999a9b9c9d9e9fa0 404142434445464748494a4b4c4d4e4f505152535455565758595a5b5c5d5e5f606162636465666768696a6b6c6d6e6f7071 = a3f95dfa91acc0cc566b342fa20c15dbcc42b021b08208cacebbd6b17a0e67a761ee3cfe02839d8b6be0048fdd85be5f0d8f|a450138135caf0dacff6df216f576f0a
gcm 000102030405060708090a0b0c0d0e0f101112131415161718191a1b1c1d1e1f 808182838485868788898a8b 909192939495969798999a9b9c9d9e9fa0a1a2a3a4a5a6a7a8a9aaabacadaeafb0 505152535455565758595a5b5c5d5e5f606162636465666768696a6b6c6d6e6f707172737475767778797a7b7c7d7e7f = 30f43c481547b7c6c6d24f6b1a2ef47ac73fd79c6ed56b6d4594eaa3da91539b59fce664c4ccdf55fd7fdc3623138fea|e1bf2d660605bf7b3561cb558abee106
gcm-of-squares 112 = bb5c5979211238b99d44a7b8762f3e75
gcm-of-squares 113 = 0e1cb6c79c739ba19b8fac447ba6d7cf
gcm-of-squares 240 = ad625c401f136c5671e5a7078eb70a16
gcm-of-squares 241 = 29e03c3befdfb51cb967d0406ae18d1e
gcm-of-squares 300 = 82bbe217076c52d140962bd544a45b97
gcm-of-squares 4096 = e676231a86d69da8dd2d039c16231635
gcm-of-squares 16336 = d1e0cb94f8d8b5a2dd1fd08a59790f38";

#[test]
fn meets_the_vectors(rt: HostRuntime) -> Result<(), Fail> {
    tell(&rt, VECTORS)
}
