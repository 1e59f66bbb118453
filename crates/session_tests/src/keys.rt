// What the key of a file system opens and seals.

use outside::FileName;
use seal_api::Sealer;
use std::alloc::{AllocError, Global};
use std::test::Fail;
use test_systems::aes_gcm::Aes256Gcm;
use test_systems::config_file::{Config, open_config};
use test_systems::{System, block, file};

/// The id of the root's block.
const ROOT: [u8; 16] = [0, 0, 0, 0, 0, 0, 0, 0, 0, 0, 0, 0, 0, 0, 0, 1];

/// What a configuration's file says under the password `pw`.
pub fn opened(alloc: Global, bytes: &[u8]) -> Result<Config, Fail> {
    Ok(open_config(alloc, b"pw", bytes)?.config)
}

/// The key of the blocks.
fn key_of(alloc: Global, system: &System) -> Result<[u8; 32], Fail> {
    let config = file(alloc, system.vault.files(), FileName::Config)?;
    Ok(opened(alloc, &config)?.key)
}

/// The record in the root's file.
fn root_record(alloc: Global, key: &[u8; 32], found: &[u8]) -> Result<Vec<u8>, Fail> {
    let sealed = found.get(16..).ok_or("a block's file has a prefix")?;
    match Aes256Gcm.unseal_with(alloc, key, &ROOT, sealed)? {
        Some(record) => Ok(record),
        None => Err(Fail::new("the root's file opens")),
    }
}

/// The root's file with this record behind the prefix of format 2, which protects the id.
fn sealed_root(alloc: Global, key: &[u8; 32], record: &[u8]) -> Result<Vec<u8>, Fail> {
    if record.len() != 16384 - 48 {
        return Err(Fail::new("a record has 48 bytes less than its file"));
    }
    let mut sealed = b"cryfs;block;0\0\x02\0".to_vec(alloc)?;
    Aes256Gcm.seal_with(key, &[9; 16], &ROOT, record, &mut sealed)?;
    Ok(sealed)
}

/// The root's file with this record behind the prefix of format 1, which doesn't.
fn root_in_the_older_format(alloc: Global, key: &[u8; 32], record: &[u8]) -> Result<Vec<u8>, Fail> {
    if record.len() != 16384 - 48 {
        return Err(Fail::new("a record has 48 bytes less than its file"));
    }
    let mut sealed = b"cryfs;block;0\0\x01\0".to_vec(alloc)?;
    Aes256Gcm.seal(key, &[9; 16], record, &mut sealed)?;
    Ok(sealed)
}

/// The record in the root's file.
fn record_in_root(alloc: Global, system: &System, key: &[u8; 32]) -> Result<Vec<u8>, Fail> {
    let found = file(alloc, system.vault.files(), block(1))?;
    root_record(alloc, key, &found)
}

/// The root's file sealed in the older format, which doesn't protect the id.
pub fn older_root(alloc: Global, system: &System) -> Result<Vec<u8>, Fail> {
    let key = key_of(alloc, system)?;
    let record = record_in_root(alloc, system, &key)?;
    root_in_the_older_format(alloc, &key, &record)
}

/// The place of the version in a block's record.
const IN_BLOCK: usize = 22;

/// The place of the version of the only block that a local record knows.
const IN_STATE: usize = 129;

/// Makes the version at this place the last one, 18446744073709551615.
fn set_last_version(bytes: &mut Vec<u8>, place: usize) {
    for byte in bytes.iter_mut().skip(place).take(8) {
        *byte = 0xff;
    }
}

/// The root's file with the last version.
pub fn spent_root(alloc: Global, system: &System) -> Result<Vec<u8>, Fail> {
    let key = key_of(alloc, system)?;
    let mut record = record_in_root(alloc, system, &key)?;
    set_last_version(&mut record, IN_BLOCK);
    sealed_root(alloc, &key, &record)
}

/// The local record with the root's last version.
pub fn spent_record(alloc: Global, kept: Option<&[u8]>) -> Result<Vec<u8>, AllocError> {
    let mut state = kept.unwrap_or(&[]).to_vec(alloc)?;
    set_last_version(&mut state, IN_STATE);
    Ok(state)
}
