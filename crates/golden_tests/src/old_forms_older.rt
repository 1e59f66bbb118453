// A stored file system, written anew in the older forms.
ghost use Rattle.std.specs.Prelude.{◌≡◌, length, IfOk};
ghost use Rattle.std.specs.declared.option.Option.TheVariants.{Some};
ghost use Rattle.block_id.specs.Formats.{format_in};
ghost use Rattle.block_id.specs.declared.format.Format.TheVariants.{Alone};
ghost use Rattle.config_file.specs.Settings.{IsBlockSize};

use block_id::BlockId;
use config_file::aes_gcm::Aes256Gcm;
use config_file::{Config, open_config};
use local_state::{decode, encode_form1};
use memory_outside::MemoryVault;
use outside::{Change, FileName, Pending};
use seal_api::Sealer;
use sealed_store::SealedStore;
use sealed_store::redo_vault::RedoVault;
use std::alloc::Global;
use std::test::Fail;

/// The files of a block directory, and the local record beside them.
pub struct Stored {
    pub files: Vec<Pending>,
    pub record: Vec<u8>,
}

/// The bytes of the configuration's file.
fn config_bytes(alloc: Global, files: &[Pending]) -> Result<Vec<u8>, Fail> {
    for file in files {
        if file.name == FileName::Config {
            if let Change::Bytes(bytes) = &file.change {
                return Ok(bytes.as_slice().to_vec(alloc)?);
            }
        }
    }
    Err(Fail::new("there is no configuration"))
}

/// A block's file of format 2 in format 1: the same record, sealed with the same vector.
fn older_file(alloc: Global, config: &Config, id: &BlockId, file: &[u8]) -> Result<Vec<u8>, Fail>
    requires { IsBlockSize config.now.block_size }
    ensures format { IfOk result (λ older. format_in older.items ≡ Some Alone) }
    ensures len { IfOk result (λ older. length older.items ≡ config.now.block_size) }
{
    let size = config.block_size as usize;
    let Some((_, sealed)) = file.split_at_checked(16) else {
        return Err(Fail::new("a block's file has a prefix"));
    };
    let Some((iv, _)) = sealed.split_at_checked(16) else {
        return Err(Fail::new("a block's file has a vector"));
    };
    let Some(record) = Aes256Gcm.unseal_with(alloc, &config.key, &id.0, sealed)? else {
        return Err(Fail::new("a block's file opens as its own"));
    };
    if record.len().checked_add(48) != Some(size) {
        return Err(Fail::new("a record has 48 bytes less than its file"));
    }
    let nowhere = RedoVault::new(MemoryVault::new(alloc), Vec::new(alloc));
    let store = SealedStore::new(nowhere, Aes256Gcm, config.key, size);
    Ok(store.seal_form1(alloc, id, &record, iv)?)
}

/// A record with an empty list in form 1, which takes block files of both formats.
fn older_record(alloc: Global, record: &[u8]) -> Result<Vec<u8>, Fail> {
    let Ok((state, list)) = decode(alloc, record) else {
        return Err(Fail::new("the record can be read"));
    };
    if !list.is_empty() {
        return Err(Fail::new("the record's list is empty"));
    }
    let mut older = state;
    older.least = 1;
    Ok(encode_form1(alloc, &older, &[])?)
}

/// The same file system in block format 1 and record form 1, as programs of before wrote it. Its record's list has to be
/// empty.
pub fn in_older_forms(
    alloc: Global,
    password: &[u8],
    files: &[Pending],
    record: &[u8],
) -> Result<Stored, Fail> {
    let Ok(opened) = open_config(alloc, password, &config_bytes(alloc, files)?) else {
        return Err(Fail::new("the configuration opens"));
    };
    let mut older = Vec::new(alloc);
    for file in files {
        let Change::Bytes(bytes) = &file.change else {
            return Err(Fail::new("a stored file has bytes"));
        };
        let bytes = match &file.name {
            FileName::Config => bytes.as_slice().to_vec(alloc)?,
            FileName::Block(id) => older_file(alloc, &opened.config, id, bytes)?,
        };
        older.push(Pending {
            name: file.name,
            change: Change::Bytes(bytes),
        })?;
    }
    Ok(Stored {
        files: older,
        record: older_record(alloc, record)?,
    })
}
