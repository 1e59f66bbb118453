// Block files, opened and sealed.
ghost use Rattle.std.specs.Prelude.{◌≡◌, ◌≤◌, ◌<◌, ◌+◌, ◌-◌, ◌^◌, ℕ, List, [], ◌∷◌, length, map, take, drop, vec_len, IfOk, IfErr, IfSome, OnOk, OnErr};
ghost use Rattle.std.specs.declared.option.Option.{Option};
ghost use Rattle.std.specs.declared.option.Option.TheVariants.{None, Some};
ghost use Rattle.block_id.specs.Formats.{prefix_of, format_in};
ghost use Rattle.block_id.specs.declared.sizes.TheConstants.{MIN_BLOCK, MAX_BLOCK};
ghost use Rattle.outside.specs.Causes.{GetHasCause};
ghost use Rattle.outside.specs.Trace.{block, config};
ghost use Rattle.outside.specs.Changes.{IsIncreasing, change_at, set_changes};
ghost use Rattle.outside.specs.View.{list_of};
ghost use Rattle.outside.specs.Writes.{after_writes, StopsAt};
ghost use Rattle.redo_vault.specs.Redo.{buffered_len, weight_len};
ghost use Rattle.sealed_store.specs.declared.sealed_store.TheConstants.{SEAL_LEN};
ghost use Rattle.sealed_store.specs.BlockFiles.{opens_file};
ghost use Rattle.sealed_store.specs.Drafts.{filled, sealed_entry, AreDrafts, IsDraftOf};
ghost use Rattle.sealed_store.specs.Stores.{seen_file_of, IsIntact, Sees, Unseen, block_size_of, key_of, cipher_of};

use crate::Seen;
use crate::drafts::{IV_LEN, seal_all, seal_waiting};
use crate::seeing::{Asked, PREFIX_ALONE, see};
use crate::sums::{REMOVAL, sealed_sum};
use crate::waiting::{see_draft, takes_drafts, waiting_draft};
use block_id::{BlockId, Format, Memory};
use outside::{Change, FileName, GetFail, Pending, Vault};
use redo_vault::RedoVault;
use seal_api::Sealer;
use std::alloc::Global;
use std::marker::Model;

/// Bytes of a block's file beside the record that it seals: the prefix, the IV and the tag.
pub const SEAL_LEN: usize = 48;

/// A directory of block files under one key. The blocks' files that wait to be written may be drafts, which are sealed when
/// the list of them is taken or written out. What is told of the list are the sealed files.
#[derive(Drop)]
pub struct SealedStore<V, C: Sealer> {
    vault: RedoVault<V>,
    drafts: bool,
    cipher: C,
    key: [u8; 32],
    block_size: usize,
}

impl<V, C: Sealer> Model for SealedStore<V, C> {
    ghost use Rattle.std.specs.Prelude.{◌≡◌, true};
    ghost use Rattle.sealed_store.specs.Drafts.{told_list, AreDrafts};
    ghost use Rattle.sealed_store.specs.Stores.{Sealed, IsIntact};

    ghost Value = { Sealed V C };

    ghost view = { λ s. record {
      vault = record { vault = s.vault.vault; list = told_list s.drafts (C.sealed s.cipher s.key) s.block_size s.vault.list };
      cipher = s.cipher;
      key = s.key;
      block_size = s.block_size;
    } };

    ghost invariant = { λ s. IsIntact s.block_size (C.iv_size s.cipher) × (s.drafts ≡ true → AreDrafts s.block_size s.vault.list) };
}

/// The configuration's file, as the one change.
fn config_change(alloc: Global, bytes: Vec<u8>) -> Result<Vec<Pending>, Memory>
    ensures { IfOk result (λ changes. list_of changes.items ≡ (config, Some bytes.items) ∷ []) }
{
    let mut changes = Vec::new(alloc);
    changes.push(Pending {
        name: FileName::Config,
        change: Change::Bytes(bytes),
    })?;
    Ok(changes)
}

/// Has these changes wait. The list is then known to be no longer than a record has room for.
fn put_waiting<V: Vault>(vault: &mut RedoVault<V>, changes: Vec<Pending>) -> Result<(), Memory>
    ensures ok { OnOk result (vault.new.list ≡ set_changes (list_of changes.items) vault.old.list) }
    ensures err { OnErr result (vault.new ≡ vault.old) }
    ensures few { length vault.new.list < 2 ^ 64 }
    ensures vault { vault.new.vault ≡ vault.old.vault }
{
    let outcome = vault.put_all(changes);
    let _count = vault.entries().len();
    outcome
}

impl<V: Vault, C: Sealer> SealedStore<V, C> {
    /// A directory of block files of `block_size` bytes, sealed under this key.
    pub fn new(vault: RedoVault<V>, cipher: C, key: [u8; 32], block_size: usize) -> Self
        requires size { (MIN_BLOCK ≤ block_size) × (block_size ≤ MAX_BLOCK) }
        requires iv { C.iv_size cipher ≡ 16 }
        ensures vault { result.vault ≡ vault }
        ensures cipher { cipher_of result ≡ cipher }
        ensures key { key_of result ≡ key }
        ensures size { block_size_of result ≡ block_size }
        ensures intact { IsIntact (block_size_of result) (C.iv_size (cipher_of result)) }
    {
        SealedStore {
            vault,
            drafts: false,
            cipher,
            key,
            block_size,
        }
    }

    /// The directory, without the unwritten list.
    pub fn into_vault(self) -> V
    where
        C: Drop,
        ensures { result ≡ self.vault.vault }
    {
        let SealedStore { vault, .. } = self;
        vault.into_vault()
    }

    /// How many bytes an IV has.
    pub fn iv_len(&self) -> usize
        ensures { result ≡ C.iv_size (cipher_of self.now) }
    {
        self.cipher.iv_len()
    }

    /// How many bytes a block file has.
    pub fn block_size(&self) -> usize
        ensures { result ≡ block_size_of self.now }
    {
        self.block_size
    }

    /// What the directory gives for a block, asked for one byte more than a file has. Files of formats below `least`
    /// aren't opened, and of a plaintext no more than its first `most` bytes are. What came is seen without memory: want of it is
    /// answered only where no file came.
    pub fn get_plain(
        &mut self,
        alloc: Global,
        id: &BlockId,
        least: u8,
        most: usize,
    ) -> Result<Seen, GetFail>
        requires { IsIntact (block_size_of self.old) (C.iv_size (cipher_of self.old)) }
        ensures sees { IfOk result (λ seen. Sees (C.opens (cipher_of self.old) (key_of self.old)) (block_size_of self.old) least most
            (change_at (block id.now.0) self.old.vault.list) (V.trace self.old.vault.vault) (V.trace self.new.vault.vault) id.now.0 (seen_file_of seen)) }
        ensures unseen { IfErr result (Unseen (change_at (block id.now.0) self.old.vault.list) (V.trace self.old.vault.vault) (V.trace self.new.vault.vault)) }
        ensures without_a_call { IfSome (change_at (block id.now.0) self.old.vault.list) (λ _. self.new.vault ≡ self.old.vault) }
        ensures list { self.new.vault.list ≡ self.old.vault.list }
        ensures same { self.new ≡ record self.old { vault = self.new.vault } }
        ensures intact { IsIntact (block_size_of self.new) (C.iv_size (cipher_of self.new)) }
        ensures cause { GetHasCause (V.faults self.old.vault.vault) (V.faults self.new.vault.vault) result }
    {
        let name = FileName::Block(*id);
        if let Some(change) = waiting_draft(self.drafts, &self.vault, &name) {
            return match see_draft(alloc, self.block_size, least, most, change) {
                Ok(seen) => Ok(seen),
                Err(Memory) => Err(GetFail::Memory),
            };
        }
        let answer = self.vault.get(alloc, &name, self.block_size + 1)?;
        let asked = Asked {
            id: *id,
            least,
            most,
        };
        let block_size = self.block_size;
        Ok(see(&self.cipher, &self.key, block_size, &asked, answer))
    }

    /// The draft of the file of whichever block with this IV that opens to this front of a plaintext, filled up with zeros, in
    /// format 2.
    pub fn draft(&self, front: Vec<u8>, iv: &[u8]) -> Result<Vec<u8>, Memory>
        requires intact { IsIntact (block_size_of self.now) (C.iv_size (cipher_of self.now)) }
        requires front { vec_len front + SEAL_LEN ≤ block_size_of self.now }
        requires iv { length iv.now ≡ C.iv_size (cipher_of self.now) }
        ensures { IfOk result (λ draft. IsDraftOf (C.opens (cipher_of self.now) (key_of self.now)) (C.sealed (cipher_of self.now) (key_of self.now))
            (block_size_of self.now) (filled (block_size_of self.now - SEAL_LEN) front.items) iv.now draft.items) }
    {
        let mut draft = front;
        // With room for the whole file, a long draft needs no other place as it is sealed.
        let is_long = draft.len() > self.block_size / 2;
        let more = if is_long {
            self.block_size - draft.len()
        } else {
            IV_LEN
        };
        draft.reserve_exact(more)?;
        draft.extend_from_slice(iv)?;
        Ok(draft)
    }

    /// Has each of these drafts and removals wait, all or none. Where sealed files wait, these are sealed at once.
    pub fn put_drafts(&mut self, drafts: Vec<Pending>) -> Result<(), Memory>
        requires intact { IsIntact (block_size_of self.old) (C.iv_size (cipher_of self.old)) }
        requires drafts { AreDrafts (block_size_of self.old) (list_of drafts.items) }
        ensures ok { OnOk result (self.new.vault.list ≡ set_changes (map (sealed_entry (C.sealed (cipher_of self.old) (key_of self.old))
            (block_size_of self.old)) (list_of drafts.items)) self.old.vault.list) }
        ensures err { OnErr result (self.new ≡ self.old) }
        ensures vault { self.new.vault.vault ≡ self.old.vault.vault }
        ensures same { self.new ≡ record self.old { vault = self.new.vault } }
        ensures few { length self.new.vault.list < 2 ^ 64 }
    {
        if takes_drafts(self.drafts, &self.vault) {
            self.drafts = true;
            return put_waiting(&mut self.vault, drafts);
        }
        let mut sealed = drafts;
        seal_all(&self.cipher, &self.key, self.block_size, &mut sealed)?;
        put_waiting(&mut self.vault, sealed)
    }

    /// Has these bytes wait for the configuration's file.
    pub fn put_config(&mut self, alloc: Global, bytes: Vec<u8>) -> Result<(), Memory>
        ensures ok { OnOk result (self.new.vault.list ≡ set_changes ((config, Some bytes.items) ∷ []) self.old.vault.list) }
        ensures err { OnErr result (self.new ≡ self.old) }
        ensures vault { self.new.vault.vault ≡ self.old.vault.vault }
        ensures same { self.new ≡ record self.old { vault = self.new.vault } }
        ensures few { length self.new.vault.list < 2 ^ 64 }
    {
        // With its number read, what waits is known to be few enough for a record.
        let _before = self.vault.entries().len();
        let changes = config_change(alloc, bytes)?;
        put_waiting(&mut self.vault, changes)
    }

    /// Takes the unwritten list, in which each draft is sealed. It is to be put back.
    pub fn take_list(&mut self, alloc: Global) -> Result<Vec<Pending>, Memory>
        ensures list { IfOk result (λ list. list_of list.items ≡ self.old.vault.list) }
        ensures increasing { IfOk result (λ list. IsIncreasing (list_of list.items)) }
        ensures taken { OnOk result (self.new ≡ record self.old { vault = record self.old.vault { list = [] } }) }
        ensures err { OnErr result (self.new ≡ self.old) }
    {
        seal_waiting(
            alloc,
            &self.cipher,
            &self.key,
            self.block_size,
            self.drafts,
            &mut self.vault,
        )?;
        self.drafts = false;
        Ok(self.vault.replace_list(Vec::new(alloc)))
    }

    /// Has a list wait that was taken.
    pub fn put_list(&mut self, list: Vec<Pending>)
        requires increasing { IsIncreasing (list_of list.items) }
        requires taken { self.old.vault.list ≡ [] }
        ensures { self.new ≡ record self.old { vault = record self.old.vault { list = list_of list.items } } }
    {
        self.drafts = false;
        drop(self.vault.replace_list(list));
    }

    /// How many changes wait.
    pub fn waiting(&self) -> usize
        ensures { result ≡ length self.now.vault.list }
    {
        self.vault.entries().len()
    }

    /// How many bytes are to be put, or the greatest number where they are more.
    pub fn buffered(&self) -> usize
        ensures { result ≡ buffered_len self.now.vault.list }
    {
        if self.drafts {
            return sealed_sum(self.block_size, 0, &self.vault);
        }
        self.vault.buffered()
    }

    /// What the list weighs, or the greatest number where it is more: the bytes that are to be put, and 64 for each
    /// removal.
    pub fn weight(&self) -> usize
        ensures { result ≡ weight_len self.now.vault.list }
    {
        if self.drafts {
            return sealed_sum(self.block_size, REMOVAL, &self.vault);
        }
        self.vault.weight()
    }

    /// Writes the unwritten list out, in order, each draft sealed. Each change leaves the list as its call answers Ok; the
    /// rest stays at the first error, which is answered.
    pub fn write_out(&mut self, alloc: Global) -> Result<(), GetFail>
        ensures ok { OnOk result (V.trace self.new.vault.vault ≡ after_writes self.old.vault.list (V.trace self.old.vault.vault)) }
        ensures all_left { OnOk result (self.new.vault.list ≡ []) }
        ensures err { OnErr result (StopsAt self.old.vault.list (V.trace self.old.vault.vault) (V.trace self.new.vault.vault) self.new.vault.list) }
        ensures idle { length self.old.vault.list ≡ 0 → self.new.vault.vault ≡ self.old.vault.vault }
        ensures same { self.new ≡ record self.old { vault = self.new.vault } }
        ensures cause { GetHasCause (V.faults self.old.vault.vault) (V.faults self.new.vault.vault) result }
    {
        let sealed = seal_waiting(
            alloc,
            &self.cipher,
            &self.key,
            self.block_size,
            self.drafts,
            &mut self.vault,
        );
        if sealed.is_err() {
            return Err(GetFail::Memory);
        }
        self.drafts = false;
        self.vault.write_out(alloc)
    }

    /// The file of a block with this IV in format 1, whose seal protects no id: the file opens to this plaintext as whichever block's. For tests
    /// and for file systems of the older form.
    pub fn seal_form1(
        &self,
        alloc: Global,
        _id: &BlockId,
        plain: &[u8],
        iv: &[u8],
    ) -> Result<Vec<u8>, Memory>
        requires intact { IsIntact (block_size_of self.now) (C.iv_size (cipher_of self.now)) }
        requires plain { length plain.now + SEAL_LEN ≡ block_size_of self.now }
        requires iv { length iv.now ≡ C.iv_size (cipher_of self.now) }
        ensures len { IfOk result (λ file. length file.items ≡ block_size_of self.now) }
        ensures prefix { IfOk result (λ file. take 16 file.items ≡ prefix_of Format.Alone) }
        ensures format { IfOk result (λ file. format_in file.items ≡ Some Format.Alone) }
        ensures iv { IfOk result (λ file. take 16 (drop 16 file.items) ≡ iv.now) }
        ensures opens { IfOk result (λ file. (id : List ℕ) → opens_file (C.opens (cipher_of self.now) (key_of self.now)) (block_size_of self.now) id file.items ≡ Some plain.now) }
    {
        let mut file = Vec::with_capacity(alloc, self.block_size)?;
        file.extend_from_slice(&PREFIX_ALONE)?;
        self.cipher.seal(&self.key, iv, plain, &mut file)?;
        Ok(file)
    }
}
