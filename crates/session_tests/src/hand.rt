// A record of the file system whose configuration was made by hand.

use crate::files::configuration;
use crate::keys::opened;
use std::alloc::{AllocError, Global};
use std::test::Fail;
use test_systems::System;
use test_systems::local_state::key_digest;
use test_systems::memory_outside::{MemoryKeeper, MemoryVault};

/// A record of the older form that knows no block, of this file system and key.
fn empty_record(alloc: Global, fs_id: &[u8; 16], key: &[u8; 32]) -> Result<Vec<u8>, AllocError> {
    let salt = [7; 32];
    let mut record = b"cryfs.localstate;1\0\0".to_vec(alloc)?;
    record.extend_from_slice(fs_id)?;
    record.extend_from_slice(&salt)?;
    record.extend_from_slice(&key_digest(&salt, key))?;
    record.extend_from_slice(&[1, 0, 0, 0])?;
    record.extend_from_slice(&[0; 16])?;
    Ok(record)
}

/// A record of the file system of the file made by hand.
fn record_by_hand(alloc: Global) -> Result<Vec<u8>, Fail> {
    let config = opened(alloc, &configuration(alloc, "by-hand")?)?;
    Ok(empty_record(alloc, &config.fs_id.0, &config.key)?)
}

/// The same with an empty directory.
pub fn system_by_hand(alloc: Global) -> Result<System, Fail> {
    let record = record_by_hand(alloc)?;
    Ok(System {
        vault: MemoryVault::new(alloc),
        keeper: MemoryKeeper::new(alloc, Some(record), Vec::new(alloc)),
    })
}
