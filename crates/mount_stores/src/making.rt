// What a new file system is made of.
ghost use Rattle.std.specs.Prelude.{◌≡◌, ◌≢◌, [], true, false, is_some, IsErr, IfOk, IfErr, OnOk};
ghost use Rattle.std.specs.FinMap as fin;
ghost use Rattle.std.specs.declared.option.Option.TheVariants.{None};
ghost use Rattle.std.specs.declared.result.Result.TheVariants.{Err};
ghost use Rattle.block_id.specs.Fresh.{zero_id};
ghost use Rattle.outside.specs.Trace.{adds, got, config};
ghost use Rattle.config_file.specs.ConfigOf.{IsOnly, opened as opened_as};
ghost use Rattle.config_file.specs.Sealing.{sealed_file};
ghost use Rattle.config_file.specs.Settings.{IsBlockSize, settings_of};
ghost use Rattle.record_saver.specs.local_state.Record.{HasRecord, plain_state};
ghost use Rattle.mount_stores.specs.declared.opening.TheConstants.{MAX_CONFIG};
ghost use Rattle.mount_stores.specs.Drawing.{drawn};
ghost use Rattle.mount_stores.specs.Failing.{TellsFault};
ghost use Rattle.mount_stores.specs.Making.{CreateCause, IsNewStore, StopsThere, new_settings, root_of};
ghost use Rattle.mount_stores.specs.Opening.{ReadsConfigOnce};

use crate::draws::Draws;
use crate::error::OpenError;
use crate::opening::MAX_CONFIG;
use block_id::{BlockId, Memory};
use config_file::{Cipher, Config, seal_config};
use integrity_store::IntegrityStore;
use integrity_store::redo_vault::RedoVault;
use integrity_store::sealed_store::SealedStore;
use outside::{FileName, GetFail, Keeper, Vault};
use rand_core::Rng;
use record_saver::local_state::{Known, State, key_digest};
use scrypt_kdf::Params;
use std::alloc::Global;

/// Sees that nothing is there: nothing is kept, and the directory gives no configuration.
pub fn ask_absent<V: Vault, K: Keeper>(
    alloc: Global,
    vault: &mut V,
    keeper: &mut K,
) -> Result<(), OpenError>
    ensures ok { OnOk result ((K.kept keeper.old ≡ None) × (V.trace vault.new ≡ adds (V.trace vault.old) (got config MAX_CONFIG None))) }
    ensures err { IfErr result (λ e. CreateCause (K.kept keeper.old) (V.trace vault.old) (V.trace vault.new) (V.faults vault.old) (V.faults vault.new) (K.faults keeper.old) (K.faults keeper.new) e) }
    ensures there { is_some (K.kept keeper.old) ≡ true → IsErr result × (vault.new ≡ vault.old) × IfErr result StopsThere }
    ensures reads { ReadsConfigOnce (V.trace vault.old) (V.trace vault.new) }
    ensures kept { K.kept keeper.new ≡ K.kept keeper.old }
    ensures vault_faults { TellsFault (result ≡ Err OpenError.FaultDirectory) (V.faults vault.old) (V.faults vault.new) }
    ensures keeper_faults { TellsFault (result ≡ Err OpenError.FaultState) (K.faults keeper.old) (K.faults keeper.new) }
{
    match keeper.load(alloc) {
        Ok(None) => {}
        Ok(Some(_)) => return Err(OpenError::Exists),
        Err(GetFail::Memory) => return Err(OpenError::Memory),
        Err(GetFail::Failed) => return Err(OpenError::FaultState),
    }
    match vault.get(alloc, &FileName::Config, MAX_CONFIG) {
        Ok(None) => Ok(()),
        Ok(Some(_)) => Err(OpenError::Exists),
        Err(GetFail::Memory) => Err(OpenError::Memory),
        Err(GetFail::Failed) => Err(OpenError::FaultDirectory),
    }
}

/// The id of the root: the drawn one, or the next where that is zero.
fn root_from(drawn: [u8; 16]) -> BlockId
    ensures id { result.0 ≡ root_of drawn }
    ensures not_zero { result.0 ≢ zero_id }
{
    let id = BlockId(drawn);
    if drawn == [0; 16] { id.next() } else { id }
}

/// What the new file system is made of.
fn config_from(block_size: u32, draws: &Draws) -> Config
    ensures settings { settings_of result ≡ new_settings block_size draws.now }
    ensures root { result.root.0 ≢ zero_id }
{
    Config {
        root: root_from(draws.root),
        key: draws.key,
        cipher: Cipher::Aes256Gcm,
        block_size,
        fs_id: BlockId(draws.fs_id),
    }
}

/// A state that knows no block, and takes no file of the older format.
fn new_state(alloc: Global, fs_id: [u8; 16], key_salt: [u8; 32], key_digest: [u8; 32]) -> State
    ensures record_ { HasRecord (plain_state result) [] }
    ensures is { plain_state result ≡ record { marked = false; least = 2; fs_id = fs_id; key_salt = key_salt; key_digest = key_digest; client = 1; lives = fin.empty } }
{
    State {
        marked: false,
        least: 2,
        fs_id: BlockId(fs_id),
        key_salt,
        key_digest,
        client: 1,
        known: Known::new(alloc),
    }
}

/// A store of this configuration that holds nothing.
fn empty_store<V: Vault>(
    alloc: Global,
    vault: V,
    config: Config,
    key_salt: [u8; 32],
) -> IntegrityStore<V, Cipher>
    requires { IsBlockSize config.block_size }
    ensures { IsNewStore (V.trace vault) (V.faults vault) V.trace V.faults (settings_of config) key_salt result }
{
    let digest = key_digest(&key_salt, &config.key);
    let state = new_state(alloc, config.fs_id.0, key_salt, digest);
    let redo = RedoVault::new(vault, Vec::new(alloc));
    let sealed = SealedStore::new(redo, config.cipher, config.key, config.block_size as usize);
    IntegrityStore::new(sealed, state)
}

/// What a file system begins with: a store that holds nothing, the configuration that it is of, and that one's file.
pub struct NewStore<V> {
    pub store: IntegrityStore<V, Cipher>,
    pub config: Config,
    pub file: Vec<u8>,
}

/// Draws what a file system is made of, in the order of `Draws`. Where there is no memory to seal its configuration, the directory
/// comes back.
pub fn new_store<V: Vault, R: Rng>(
    alloc: Global,
    vault: V,
    password: &[u8],
    params: &Params,
    block_size: u32,
    chance: &mut R,
) -> Result<NewStore<V>, V>
    requires { IsBlockSize block_size }
    ensures is_new { IfOk result (λ new. IsNewStore (V.trace vault) (V.faults vault) V.trace V.faults (settings_of new.config) (drawn (R.stream chance.old)).0.key_salt new.store) }
    ensures settings { IfOk result (λ new. settings_of new.config ≡ new_settings block_size (drawn (R.stream chance.old)).0) }
    ensures root { IfOk result (λ new. new.config.root.0 ≢ zero_id) }
    ensures file { IfOk result (λ new. new.file.items ≡ sealed_file password.now params.now (drawn (R.stream chance.old)).0.seal (new_settings block_size (drawn (R.stream chance.old)).0)) }
    ensures opens { IfOk result (λ new. IsOnly password.now new.file.items (opened_as (new_settings block_size (drawn (R.stream chance.old)).0) params.now)) }
    ensures err { IfErr result (λ back. back ≡ vault) }
    ensures stream { R.stream chance.new ≡ (drawn (R.stream chance.old)).1 }
{
    let draws = Draws::draw(chance);
    let config = config_from(block_size, &draws);
    match seal_config(alloc, password, params, &draws.seal, &config) {
        Ok(file) => {
            let store = empty_store(alloc, vault, config, draws.key_salt);
            Ok(NewStore {
                store,
                config,
                file,
            })
        }
        Err(Memory) => Err(vault),
    }
}
