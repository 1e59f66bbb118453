// Opening the store of a record.
ghost use Rattle.std.specs.Prelude.{◌≡◌, ◌≢◌, ◌≤◌, ℕ, List, false, IfOk, IfErr, OnOk, OnErr};
ghost use Rattle.std.specs.FinMap as fin;
ghost use Rattle.outside.specs.View.{list_of};
ghost use Rattle.record_saver.specs.local_state.Record.{plain_state, HasRecord, IsRecord};
ghost use Rattle.block_cache.specs.store_api.Content.{Content, SameContent};
ghost use Rattle.integrity_store.specs.block_versions.Stores.{version_in};
ghost use Rattle.integrity_store.specs.block_versions.Standing.{Stands as StandsFor};
ghost use Rattle.config_file.specs.Settings.{settings_of, IsBlockSize};
ghost use Rattle.mount_stores.specs.Opening.{OpenedConfig, IsOf, ReadsConfigOnce, ConfigCause};
ghost use Rattle.mount_stores.specs.Identities.{Holder, identity_for};
ghost use Rattle.mount_stores.specs.Stores.{FindsConfig, IsOpenedStore, OpensNone};
ghost use Rattle.mount_stores.specs.Tower.{trace_in, tower_meanings, tower_holdings};
ghost use Rattle.std.specs.declared.result.Result.TheVariants.{Err};

use crate::error::OpenError;
use crate::tower::{Cached, cached_store};
use config_file::{Config, ConfigError, FILE_LEN, Opened, open_config};
use integrity_store::redo_vault::RedoVault;
use integrity_store::sealed_store::SealedStore;
use outside::{FileName, GetFail, Pending, Vault};
use record_saver::local_state::{State, key_digest};
use std::alloc::Global;

/// Bytes of the configuration's file that are asked for: one more than it has.
pub const MAX_CONFIG: usize = FILE_LEN + 1;

/// Opens the configuration that the list or the directory gives.
fn read_config<V: Vault>(
    alloc: Global,
    vault: &mut RedoVault<V>,
    password: &[u8],
) -> Result<Opened, OpenError>
    ensures ok { IfOk result (λ o. OpenedConfig password.now vault.old.list (V.trace vault.old.vault) (V.trace vault.new.vault) o) }
    ensures err { IfErr result (λ e. ConfigCause password.now vault.old.list (V.trace vault.old.vault) (V.trace vault.new.vault) (V.faults vault.old.vault) (V.faults vault.new.vault) e) }
    ensures size { IfOk result (λ o. IsBlockSize o.config.block_size) }
    ensures reads { ReadsConfigOnce (V.trace vault.old.vault) (V.trace vault.new.vault) }
    ensures list { vault.new.list ≡ vault.old.list }
    ensures grows { V.faults vault.old.vault ≤ V.faults vault.new.vault }
    ensures quiet { result ≢ Err OpenError.FaultDirectory → V.faults vault.new.vault ≡ V.faults vault.old.vault }
{
    let file = match vault.get(alloc, &FileName::Config, MAX_CONFIG) {
        Ok(Some(file)) => file,
        Ok(None) => return Err(OpenError::NoConfig),
        Err(GetFail::Memory) => return Err(OpenError::Memory),
        Err(GetFail::Failed) => return Err(OpenError::FaultDirectory),
    };
    match open_config(alloc, password, &file) {
        Ok(opened) => Ok(opened),
        Err(ConfigError::Memory) => Err(OpenError::Memory),
        Err(ConfigError::Form) => Err(OpenError::Config(ConfigError::Form)),
        Err(ConfigError::Locked) => Err(OpenError::Config(ConfigError::Locked)),
        Err(ConfigError::Inner) => Err(OpenError::Config(ConfigError::Inner)),
    }
}

/// Whether the record is of the configuration's file system and key.
fn check_identity(state: &State, config: &Config) -> Result<(), OpenError>
    ensures ok { OnOk result (IsOf (plain_state state.now) (settings_of config.now)) }
    ensures err { IfErr result (λ e. e ≡ OpenError.Mismatch state.now.fs_id config.now.fs_id) }
    ensures other { OnErr result (¬ IsOf (plain_state state.now) (settings_of config.now)) }
{
    let digest = key_digest(&state.key_salt, &config.key);
    if state.fs_id != config.fs_id || state.key_digest != digest {
        return Err(OpenError::Mismatch {
            kept: state.fs_id,
            found: config.fs_id,
        });
    }
    Ok(())
}

/// A store, and the configuration that it was opened by.
pub struct Opening<V> {
    pub store: Cached<V>,
    pub opened: Opened,
}

/// A directory that wasn't opened.
pub struct Unread<V> {
    pub error: OpenError,
    pub vault: V,
}

/// The store of a record, over the configuration that the list or the directory gives.
pub fn open_store<V: Vault>(
    alloc: Global,
    vault: V,
    password: &[u8],
    state: State,
    list: Vec<Pending>,
) -> Result<Opening<V>, Unread<V>>
    requires record_ { HasRecord (plain_state state) (list_of list.items) }
    requires unmarked { state.marked ≡ false }
    ensures store { IfOk result (λ o. IsOpenedStore V.trace V.faults (plain_state state) (list_of list.items) (settings_of o.opened.config) (V.faults vault) o.store) }
    ensures found { IfOk result (λ o. FindsConfig password.now (plain_state state) (list_of list.items) (V.trace vault) (trace_in V.trace o.store) o.opened) }
    ensures stands { IfOk result (λ o. (holder : Holder) (content : Content) (kept : List ℕ) → IsRecord (plain_state state) (list_of list.items) kept
        → StandsFor (identity_for (settings_of o.opened.config) holder) kept (V.trace vault) content
        → (tower_meanings V.trace V.faults).sound o.store × SameContent content ((tower_holdings V.trace).content o.store)) }
    ensures version { IfOk result (λ o. (id : List ℕ) → (tower_holdings V.trace).version o.store id ≡ version_in (fin.get (plain_state state).lives id)) }
    ensures unread { IfErr result (λ u. OpensNone password.now (plain_state state) (list_of list.items) (V.trace vault) (V.trace u.vault) (V.faults vault) (V.faults u.vault) u.error) }
{
    let mut redo = RedoVault::new(vault, list);
    let opened = match read_config(alloc, &mut redo, password) {
        Ok(opened) => opened,
        Err(error) => {
            return Err(Unread {
                error,
                vault: redo.into_vault(),
            });
        }
    };
    match check_identity(&state, &opened.config) {
        Ok(()) => {}
        Err(error) => {
            return Err(Unread {
                error,
                vault: redo.into_vault(),
            });
        }
    }
    let config = opened.config;
    let sealed = SealedStore::new(redo, config.cipher, config.key, config.block_size as usize);
    match cached_store(alloc, sealed, state) {
        Ok(store) => Ok(Opening { store, opened }),
        Err(vault) => Err(Unread {
            error: OpenError::Memory,
            vault,
        }),
    }
}
