// The sealer that AES-256 makes in GCM.
ghost use Rattle.std.specs.Prelude.{◌≡◌, ◌≤◌, ◌+◌, ◌++◌, length, take, vec_len, OnOk, OnErr};
ghost use Rattle.seal_api.specs.Sealing.{middle};
ghost use Rattle.aes_gcm.specs.Gcm.{sealed_of};

use crate::gcm_key::GcmKey;
use block_id::Memory;
use seal_api::Sealer;
use std::alloc::Global;

/// The length of an IV.
const IV_LEN: usize = 16;

/// The length of a tag.
const TAG_LEN: usize = 16;

/// Sealed texts are an IV of 16 bytes, the ciphertext and a tag of 16 bytes.
#[derive(Clone, Copy)]
pub struct Aes256Gcm;

impl Sealer for Aes256Gcm {
    ghost use Rattle.aes_gcm.specs.Gcm.{opened_of, sealed_of};
    ghost use Rattle.aes_gcm.specs.Lengths.{length-opened_of, opened_of-agrees};
    ghost use Rattle.aes_gcm.specs.Opening.{seals-sealed_of};

    ghost iv_size = { λ _. 16 };

    ghost opens = { λ _ key extra text. opened_of key extra text };

    ghost sealed = { λ _ key iv extra plain. sealed_of key iv extra plain };

    fn iv_len(&self) -> usize {
        IV_LEN
    }

    fn seal_in_place(&self, key: &[u8; 32], iv: &[u8], extra: &[u8], text: &mut [u8]) {
        seal_text(key, iv, extra, text);
    }

    fn seal_with(
        &self,
        key: &[u8; 32],
        iv: &[u8],
        extra: &[u8],
        plain: &[u8],
        out: &mut Vec<u8>,
    ) -> Result<(), Memory> {
        let start = out.len();
        let sealed = append_sealed(key, iv, extra, plain, out);
        if sealed.is_err() {
            out.truncate(start);
        }
        sealed
    }

    fn unseal_with(
        &self,
        alloc: Global,
        key: &[u8; 32],
        extra: &[u8],
        sealed: &[u8],
    ) -> Result<Option<Vec<u8>>, Memory> {
        self.unseal_front(alloc, key, extra, sealed, sealed.len())
    }

    fn unseal_front(
        &self,
        alloc: Global,
        key: &[u8; 32],
        extra: &[u8],
        sealed: &[u8],
        most: usize,
    ) -> Result<Option<Vec<u8>>, Memory> {
        if sealed.len() < IV_LEN + TAG_LEN {
            return Ok(None);
        }
        let end = sealed.len() - TAG_LEN;
        let mut tag = [0u8; TAG_LEN];
        tag.copy_from_slice(&sealed[end..]);
        let text = &sealed[IV_LEN..end];
        let ready = GcmKey::from_key(key);
        ready.unseal_front(alloc, &sealed[..IV_LEN], extra, text, &tag, most)
    }

    fn unseal_in_place(&self, key: &[u8; 32], extra: &[u8], text: &mut [u8], most: usize) -> bool {
        if text.len() < IV_LEN + TAG_LEN {
            return false;
        }
        let end = text.len() - TAG_LEN;
        let mut iv = [0u8; IV_LEN];
        iv.copy_from_slice(&text[..IV_LEN]);
        let mut tag = [0u8; TAG_LEN];
        tag.copy_from_slice(&text[end..]);
        let ready = GcmKey::from_key(key);
        ready.unseal_in_place(&iv, extra, &mut text[IV_LEN..end], &tag, most)
    }

    ghost seals = { λ _ key iv extra plain len. seals-sealed_of key iv extra plain len };

    ghost lengths = { λ _ key extra text plain opens. length-opened_of key extra text plain opens };

    ghost agrees = { λ _ key extra other text plain again opens also. opened_of-agrees key extra other text plain again opens also };
}

/// Seals the plaintext that stands between room for the IV and room for the tag.
fn seal_text(key: &[u8; 32], iv: &[u8], extra: &[u8], text: &mut [u8])
    requires iv { length iv.now ≡ 16 }
    requires room { 32 ≤ length text.old }
    ensures { text.new ≡ sealed_of key.now iv.now extra.now (middle 16 16 text.old) }
{
    let end = text.len() - TAG_LEN;
    let tag = GcmKey::from_key(key).seal(iv, extra, &mut text[IV_LEN..end]);
    text[..IV_LEN].copy_from_slice(iv);
    text[end..].copy_from_slice(&tag);
}

/// Appends a sealed text, or a part of it where memory is refused.
pub fn append_sealed(
    key: &[u8; 32],
    iv: &[u8],
    extra: &[u8],
    plain: &[u8],
    out: &mut Vec<u8>,
) -> Result<(), Memory>
    requires { length iv.now ≡ 16 }
    ensures ok { OnOk result (out.new.items ≡ out.old.items ++ sealed_of key.now iv.now extra.now plain.now) }
    ensures err { OnErr result (take (vec_len out.old) out.new.items ≡ out.old.items) }
{
    let start = out.len();
    out.extend_from_slice(iv)?;
    out.extend_from_slice(plain)?;
    out.extend_from_slice(&[0; TAG_LEN])?;
    seal_text(key, iv, extra, &mut out[start..]);
    Ok(())
}
