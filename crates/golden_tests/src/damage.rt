// One damage of the stored file system for each verdict on a block.

use crate::stories::{Tale, tell};
use crate::system::{block_of, older_file_of, stored_system};
use config_file::aes_gcm::Aes256Gcm;
use config_file::open_config;
use outside::FileName;
use seal_api::Sealer;
use std::alloc::Global;
use std::test::Fail;
use test_systems::{Status, System, ask, file, store};

/// The bytes of a file without the last one, or with a bit of the first or the last changed.
fn changed(mut bytes: Vec<u8>, damage: &str) -> Vec<u8> {
    let last = bytes.len().saturating_sub(1);
    if damage == "cut" {
        bytes.truncate(last);
        return bytes;
    }
    let place = if damage == "first-bit" { 0 } else { last };
    if let Some(byte) = bytes.get_mut(place) {
        *byte ^= 1;
    }
    bytes
}

/// The key of the file system.
fn key_of(alloc: Global, system: &System) -> Result<[u8; 32], Fail> {
    let config = file(alloc, system.vault.files(), FileName::Config)?;
    Ok(open_config(alloc, b"pw", &config)?.config.key)
}

/// The record that is sealed in a file.
fn record_in(alloc: Global, key: &[u8; 32], found: &[u8]) -> Result<Vec<u8>, Fail> {
    let sealed = found.get(16..).ok_or("a block's file has a prefix")?;
    match Aes256Gcm.unseal(alloc, key, sealed)? {
        Some(record) => Ok(record),
        None => Err(Fail::new("the file opens")),
    }
}

/// A record behind the prefix of format 1.
fn sealed(alloc: Global, key: &[u8; 32], record: &[u8]) -> Result<Vec<u8>, Fail> {
    if record.len() != 256 - 48 {
        return Err(Fail::new("a record has 48 bytes less than its file"));
    }
    let mut crafted = b"cryfs;block;0\0\x01\0".to_vec(alloc)?;
    Aes256Gcm.seal(key, &[9; 16], record, &mut crafted)?;
    Ok(crafted)
}

/// The place of a field in a record, and the byte there: `client 2`.
fn place_and_byte(field: &str) -> Option<(usize, u8)> {
    let (name, value) = field.split_once(' ')?;
    let place = match name {
        "format" => 0,
        "client" => 18,
        "version" => 22,
        "node" => 30,
        _ => return None,
    };
    Some((place, value.parse().ok()?))
}

/// This file with another byte in its record, sealed under the key of the file system.
fn sealed_anew(alloc: Global, system: &System, found: &[u8], field: &str) -> Result<Vec<u8>, Fail> {
    let (place, value) = place_and_byte(field).ok_or("a field of a record and its byte")?;
    let key = key_of(alloc, system)?;
    let mut record = record_in(alloc, &key, found)?;
    if let Some(byte) = record.get_mut(place) {
        *byte = value;
    }
    sealed(alloc, &key, &record)
}

/// What lies in place of the file of `/docs/note`: the root's file, its own from before, or its own with this damage.
fn damaged(alloc: Global, system: &System, damage: &str) -> Result<Vec<u8>, Fail> {
    let found = file(alloc, system.vault.files(), block_of("note")?)?;
    match damage {
        "root" => file(alloc, system.vault.files(), block_of("root")?),
        "before" => older_file_of(alloc, "note"),
        "cut" | "first-bit" | "last-bit" => Ok(changed(found, damage)),
        _ => sealed_anew(alloc, system, &found, damage),
    }
}

/// Stores the file of `/docs/note` with this damage, or removes it.
fn do_damage(alloc: Global, system: &mut System, damage: &str) -> Result<(), Fail> {
    let bytes = match damage {
        "absent" => None,
        _ => Some(damaged(alloc, system, damage)?),
    };
    Ok(store(alloc, system, block_of("note")?, bytes)?)
}

/// A session over the stored file system where the file of `/docs/note` has this damage meets this verdict: `cut: bad-length`.
pub fn has_verdict(alloc: Global, tale: &mut Tale, said: &str) -> Result<(), Fail> {
    let (damage, verdict) = said.split_once(": ").ok_or("a damage and its verdict")?;
    tale.system = stored_system(alloc, "stored")?;
    do_damage(alloc, &mut tale.system, damage)?;
    let text = format!(in alloc; "violation {verdict}\nrefused violation\n")?;
    let lines = "read /docs/note 0 9\nls /\n";
    ask(alloc, &mut tale.system, lines, &text, Status::Violation)
}

const DAMAGES: &str = "# each damage of the file's bytes
> !damaged absent: missing
> !damaged cut: bad-length
> !damaged first-bit: bad-prefix
> !damaged last-bit: not-opened
> !damaged root: wrong-id 2E0435824AAF8B86DF5ED063B4777541
> !damaged before: old-version 3 2
# each damage of the record that is sealed in it, by client 1 at version 3
> !damaged format 2: bad-record
> !damaged client 0: bad-record
> !damaged version 0: bad-record
> !damaged client 2: foreign-client 2
> !damaged version 1: old-version 3 1
> !damaged version 4: ahead-version 3 4
> !damaged node 1: structure
";

#[test]
fn each_damage_has_its_verdict(rt: HostRuntime) -> Result<(), Fail> {
    tell(&rt, DAMAGES)
}
