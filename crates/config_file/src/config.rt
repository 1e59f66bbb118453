// A configuration.

use aes_gcm::Aes256Gcm;
use block_id::{BlockId, Memory};
use scrypt_kdf::Params;
use seal_api::Sealer;
use std::alloc::Global;

/// What seals the blocks.
#[derive(Clone, Copy, PartialEq, Eq)]
pub enum Cipher {
    /// AES-256 in Galois/Counter Mode, named `aes-256-gcm`.
    Aes256Gcm,
}

/// What a file system is made of.
#[derive(Clone, Copy, PartialEq, Eq)]
pub struct Config {
    /// The blob of the root directory.
    pub root: BlockId,
    /// The key of the blocks.
    pub key: [u8; 32],
    pub cipher: Cipher,
    /// How many bytes the file of a block has, 128 to 1,048,576.
    pub block_size: u32,
    /// The id of the file system.
    pub fs_id: BlockId,
}

/// A configuration, and the parameters of scrypt that it was sealed with.
#[derive(Clone, Copy)]
pub struct Opened {
    pub config: Config,
    pub params: Params,
}

impl Sealer for Cipher {
    ghost use Rattle.aes_gcm.specs.Gcm.{opened_of, sealed_of};
    ghost use Rattle.aes_gcm.specs.Lengths.{length-opened_of, opened_of-agrees};
    ghost use Rattle.aes_gcm.specs.Opening.{seals-sealed_of};

    ghost iv_size = { λ _. 16 };

    ghost opens = { λ _ key extra text. opened_of key extra text };

    ghost sealed = { λ _ key iv extra plain. sealed_of key iv extra plain };

    fn iv_len(&self) -> usize {
        Aes256Gcm.iv_len()
    }

    fn seal_in_place(&self, key: &[u8; 32], iv: &[u8], extra: &[u8], text: &mut [u8]) {
        Aes256Gcm.seal_in_place(key, iv, extra, text);
    }

    fn seal_with(
        &self,
        key: &[u8; 32],
        iv: &[u8],
        extra: &[u8],
        plain: &[u8],
        out: &mut Vec<u8>,
    ) -> Result<(), Memory> {
        Aes256Gcm.seal_with(key, iv, extra, plain, out)
    }

    fn unseal_with(
        &self,
        alloc: Global,
        key: &[u8; 32],
        extra: &[u8],
        sealed: &[u8],
    ) -> Result<Option<Vec<u8>>, Memory> {
        Aes256Gcm.unseal_with(alloc, key, extra, sealed)
    }

    fn unseal_front(
        &self,
        alloc: Global,
        key: &[u8; 32],
        extra: &[u8],
        sealed: &[u8],
        most: usize,
    ) -> Result<Option<Vec<u8>>, Memory> {
        Aes256Gcm.unseal_front(alloc, key, extra, sealed, most)
    }

    fn unseal_in_place(&self, key: &[u8; 32], extra: &[u8], text: &mut [u8], most: usize) -> bool {
        Aes256Gcm.unseal_in_place(key, extra, text, most)
    }

    ghost seals = { λ _ key iv extra plain len. seals-sealed_of key iv extra plain len };

    ghost lengths = { λ _ key extra text plain opens. length-opened_of key extra text plain opens };

    ghost agrees = { λ _ key extra other text plain again opens also. opened_of-agrees key extra other text plain again opens also };
}
