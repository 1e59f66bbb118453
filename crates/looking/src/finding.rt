// The configuration under a password, and the blocks that its root leads to.
ghost use Rattle.std.specs.Prelude.{◌≡◌, ◌≤◌, [], false, IfOk, IfErr};
ghost use Rattle.session_laws.specs.config_file.Settings.{IsBlockSize, settings_of};
ghost use Rattle.session_laws.specs.mount_stores.Opening.{ConfigCause, ReadsConfigOnce};
ghost use Rattle.mount_answering.specs.store_api.Holdings.{IsFew};
ghost use Rattle.looking.specs.Finding.{BeginsLook, BeginsUnder, FindsNone, GaveSettings, IsUnbegun, found_holdings, found_meanings};
ghost use Rattle.looking.specs.Hosting.{IsReady};

use crate::host::Looked;
use block_id::BlockId;
use found_blocks::FoundStore;
use found_blocks::redo_vault::RedoVault;
use found_blocks::sealed_store::SealedStore;
use mount_answering::mount_core::path_layer::BlobStore;
use mount_answering::store_api::{Blocks, Tx};
use outside::{FileName, GetFail, Vault};
use session_laws::config_file::{Cipher, Config, ConfigError, open_config};
use session_laws::run_frame::mount_stores::{MAX_CONFIG, OpenError};
use std::alloc::Global;

/// Why nothing is looked at, and the directory.
pub struct Unbegun<V> {
    pub error: OpenError,
    pub vault: V,
}

/// Asks for the configuration's file, and opens it under the password.
fn read_config<V: Vault>(alloc: Global, vault: &mut V, password: &[u8]) -> Result<Config, OpenError>
    ensures gave { IfOk result (λ config. GaveSettings password.now (V.trace vault.old) (V.trace vault.new) (settings_of config)) }
    ensures size { IfOk result (λ config. IsBlockSize config.block_size) }
    ensures quiet { IfOk result (λ config. V.faults vault.new ≡ V.faults vault.old) }
    ensures cause { IfErr result (ConfigCause password.now [] (V.trace vault.old) (V.trace vault.new) (V.faults vault.old) (V.faults vault.new)) }
    ensures reads { ReadsConfigOnce (V.trace vault.old) (V.trace vault.new) }
    ensures grows { V.faults vault.old ≤ V.faults vault.new }
{
    let file = match vault.get(alloc, &FileName::Config, MAX_CONFIG) {
        Ok(Some(file)) => file,
        Ok(None) => return Err(OpenError::NoConfig),
        Err(GetFail::Memory) => return Err(OpenError::Memory),
        Err(GetFail::Failed) => return Err(OpenError::FaultDirectory),
    };
    match open_config(alloc, password, &file) {
        Ok(opened) => Ok(opened.config),
        Err(ConfigError::Memory) => Err(OpenError::Memory),
        Err(ConfigError::Form) => Err(OpenError::Config(ConfigError::Form)),
        Err(ConfigError::Locked) => Err(OpenError::Config(ConfigError::Locked)),
        Err(ConfigError::Inner) => Err(OpenError::Config(ConfigError::Inner)),
    }
}

/// Looks over these found blocks, from this root on.
fn look_over<V: Vault>(
    alloc: Global,
    store: FoundStore<V, Cipher>,
    root: BlockId,
) -> Looked<FoundStore<V, Cipher>>
    requires intact { ⟦<FoundStore<V, Cipher> as Blocks>⟧.meanings.intact store }
    requires few { IsFew (⟦<FoundStore<V, Cipher> as Blocks>⟧.holdings.used store) }
    ensures ready { IsReady (found_meanings V.trace V.faults) found_holdings result }
    ensures store { result.blobs.tx.store ≡ store }
    ensures root { result.root ≡ root }
    ensures fresh { result.violated ≡ false }
{
    Looked {
        blobs: BlobStore {
            tx: Tx::new(alloc, store, [0; 32]),
        },
        root,
        violated: false,
    }
}

/// Finds the blocks that the configuration's root leads to.
fn find_from<V: Vault>(
    alloc: Global,
    vault: V,
    config: &Config,
) -> Result<Looked<FoundStore<V, Cipher>>, Unbegun<V>>
    requires { IsBlockSize config.now.block_size }
    ensures begins { IfOk result (BeginsUnder V.trace V.faults (settings_of config.now) vault) }
    ensures none { IfErr result (FindsNone V.trace V.faults vault) }
{
    let redo = RedoVault::new(vault, Vec::new(alloc));
    let sealed = SealedStore::new(redo, config.cipher, config.key, config.block_size as usize);
    let mut store = FoundStore::new(alloc, sealed);
    match store.discover(alloc, &config.root) {
        Ok(()) => Ok(look_over(alloc, store, config.root)),
        Err(GetFail::Memory) => Err(Unbegun {
            error: OpenError::Memory,
            vault: store.into_vault(),
        }),
        Err(GetFail::Failed) => Err(Unbegun {
            error: OpenError::FaultDirectory,
            vault: store.into_vault(),
        }),
    }
}

/// Reads the configuration under the password, and finds the blocks that its root leads to. Only files are asked for.
pub fn find_files<V: Vault>(
    alloc: Global,
    vault: V,
    password: &[u8],
) -> Result<Looked<FoundStore<V, Cipher>>, Unbegun<V>>
    ensures begins { IfOk result (BeginsLook V.trace V.faults password.now vault) }
    ensures unbegun { IfErr result (IsUnbegun V.trace V.faults password.now vault) }
{
    let mut vault = vault;
    let config = match read_config(alloc, &mut vault, password) {
        Ok(config) => config,
        Err(error) => return Err(Unbegun { error, vault }),
    };
    match find_from(alloc, vault, &config) {
        Ok(looked) => Ok(looked),
        Err(unbegun) => Err(unbegun),
    }
}
